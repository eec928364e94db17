// Whole runs of the bench over forms in memory.
use crate::fixtures::{PERSON, PERSON_SPEC};
use crate::told::device;
use bench_top::run;
use outside::{MemorySink, MemoryStore, Status};
use std::alloc::{AllocError, Global};
use std::test::Fail;

// The exit status of a run of these words, and what it prints where there is room for so many bytes.
fn printed(alloc: Global, texts: &[&str], bytes: &[u8], room: usize) -> Result<String, Fail> {
    let mut store = MemoryStore::new(alloc);
    store.put("spec", bytes)?;
    store.put("long", long(alloc)?.as_slice())?;
    let mut out = MemorySink::new(alloc, room)?;
    let mut words = Vec::new(alloc);
    for text in texts {
        words.push(String::from_str(alloc, text)?)?;
    }
    match run(alloc, &words, &mut store, &mut out, &mut device(alloc)?) {
        Status::NoMemory => Err(AllocError)?,
        status => {
            let code = status.code();
            let text = str::from_utf8(out.bytes()).unwrap_or("no text");
            Ok(format!(in alloc; "{code} {text}")?)
        }
    }
}

// One byte more than a file may have.
fn long(alloc: Global) -> Result<Vec<u8>, Fail> {
    Ok(vec![in alloc; b' '; 1_048_577]?)
}

// Words, the bytes of the file `spec`, the room of the sink, and what is printed.
fn are_printed(alloc: Global, rows: &[(&[&str], &[u8], usize, &str)]) -> Result<bool, Fail> {
    for (words, bytes, room, wanted) in rows {
        if printed(alloc, words, bytes, *room)?.as_str() != *wanted {
            return Ok(false);
        }
    }
    Ok(true)
}

#[test]
fn issuing(rt: HostRuntime) -> Result<(), Fail> {
    let alloc = rt.alloc();
    let wanted = format!(in alloc; "0 {PERSON}\n")?;
    let rows: [(&[&str], &[u8], usize, &str); 9] = [
        (
            &["issue", "spec"],
            PERSON_SPEC.as_bytes(),
            9999,
            wanted.as_str(),
        ),
        (&["issue", "spec"], b"{}", 9999, "18 spec refused 1\n"),
        (&["issue", "spec"], b"{}", 4, "7 spec"),
        (
            &["issue", "spec"],
            b"\xff",
            9999,
            "12 file refused spec 1\n",
        ),
        (&["issue", "none"], b"", 9999, "6 read fault\n"),
        (&["issue", "long"], b"", 9999, "14 too long long\n"),
        (&["issue"], b"", 9999, "2 usage\n"),
        (&["issues", "spec"], b"", 9999, "2 usage\n"),
        (&[], b"", 9999, "2 usage\n"),
    ];
    assert!(rt; are_printed(alloc, &rows)?);
    Ok(())
}
