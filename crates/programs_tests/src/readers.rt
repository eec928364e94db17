// What the store of the system makes of a reader and of an error.
use outside::{StoreError, cause_of, read_within};
use std::alloc::{AllocError, Global};
use std::io::{self, ErrorKind, Read};
use std::test::Fail;

fn is_within(
    alloc: Global,
    bytes: &[u8],
    limit: usize,
    wanted: Option<&[u8]>,
) -> Result<bool, Fail> {
    let found = read_within(alloc, bytes, limit)?;
    Ok(found.as_deref() == wanted)
}

fn are_within(alloc: Global, rows: &[(&[u8], usize, Option<&[u8]>)]) -> Result<bool, Fail> {
    for (bytes, limit, wanted) in rows {
        if !is_within(alloc, bytes, *limit, *wanted)? {
            return Ok(false);
        }
    }
    Ok(true)
}

#[test]
fn limits(rt: HostRuntime) -> Result<(), Fail> {
    let rows: [(&[u8], usize, Option<&[u8]>); 6] = [
        (b"", 0, Some(b"")),
        (b"a", 0, None),
        (b"ab", 3, Some(b"ab")),
        (b"ab", 2, Some(b"ab")),
        (b"ab", 1, None),
        (b"ab", usize::MAX, Some(b"ab")),
    ];
    assert!(rt; are_within(rt.alloc(), &rows)?);
    Ok(())
}

// Two bytes, of which each read gives one, and then an error at the third read.
#[derive(Drop)]
struct Broken {
    reads: u8,
    error: ErrorKind,
}

impl Read for Broken {
    fn read(&mut self, bytes: &mut [u8]) -> io::Result<usize> {
        self.reads = self.reads.saturating_add(1);
        if self.reads == 3 {
            return Err(io::Error::from(self.error));
        }
        if self.reads > 3 || bytes.is_empty() {
            return Ok(0);
        }
        bytes[0] = b'a';
        Ok(1)
    }
}

// Whether a reader that breaks by such an error, read within the limit, gives this, or else breaks by that
// error.
fn breaks(
    alloc: Global,
    error: ErrorKind,
    limit: usize,
    wanted: Result<Option<&[u8]>, ErrorKind>,
) -> Result<bool, Fail> {
    match read_within(alloc, Broken { reads: 0, error }, limit) {
        Ok(found) => Ok(wanted == Ok(found.as_deref())),
        Err(error) => match error.kind() {
            ErrorKind::OutOfMemory => Err(AllocError)?,
            kind => Ok(wanted == Err(kind)),
        },
    }
}

// A read that is interrupted is made again, and any other error is handed on, unless all that is wanted is
// there.
#[test]
fn errors(rt: HostRuntime) -> Result<(), Fail> {
    let alloc = rt.alloc();
    let (again, reset) = (ErrorKind::Interrupted, ErrorKind::ConnectionReset);
    assert!(rt; breaks(alloc, again, 2, Ok(Some(b"aa")))?);
    assert!(rt; breaks(alloc, reset, 2, Err(reset))?);
    assert!(rt; breaks(alloc, reset, 1, Ok(None))?);
    Ok(())
}

#[test]
fn causes(rt: HostRuntime) {
    for (kind, wanted) in [
        (ErrorKind::NotFound, StoreError::Failed),
        (ErrorKind::PermissionDenied, StoreError::Failed),
        (ErrorKind::OutOfMemory, StoreError::NoMemory),
    ] {
        assert!(rt; cause_of(&io::Error::from(kind)) == wanted);
    }
}
