// Each step of a program over forms in memory.
use crate::told::{filled, is_text};
use key_device::SignError;
use outside::{MemorySink, MemoryStore, Status};
use program_steps::{
    Reply, Stop, close, file_refused, finish, query_refused, read_file, text_of, too_long,
};
use runs::Fault;
use std::alloc::{AllocError, Global};
use std::test::Fail;

// A file that is read, or what ends the command.
fn file_text(
    alloc: Global,
    store: &mut MemoryStore,
    name: &str,
    limit: usize,
) -> Result<String, Fail> {
    match read_file(alloc, store, name, limit) {
        Ok(bytes) => Ok(String::from_str(alloc, text_of(&bytes).unwrap_or("no text"))?),
        Err(Stop::Refused(reply)) => {
            let code = reply.status.code();
            let text = reply.text.as_str();
            Ok(format!(in alloc; "{code} {text}")?)
        }
        Err(Stop::Failed(Fault::Read)) => Ok(String::from_str(alloc, "read fault")?),
        Err(Stop::Failed(Fault::Device)) => Ok(String::from_str(alloc, "device fault")?),
        Err(Stop::Failed(Fault::Clock)) => Ok(String::from_str(alloc, "clock fault")?),
        Err(Stop::Failed(Fault::Write)) => Ok(String::from_str(alloc, "write fault")?),
        Err(Stop::NoMemory) => Err(AllocError)?,
    }
}

fn files_are_read(
    alloc: Global,
    store: &mut MemoryStore,
    rows: &[(&str, usize, &str)],
) -> Result<bool, Fail> {
    for (name, limit, wanted) in rows {
        if !is_text(file_text(alloc, store, name, *limit)?.as_str(), wanted) {
            return Ok(false);
        }
    }
    for (read, (name, _, _)) in store.reads().iter().zip(rows) {
        if !is_text(read.name.as_str(), name) {
            return Ok(false);
        }
    }
    Ok(store.reads().len() == rows.len())
}

#[test]
fn files(rt: HostRuntime) -> Result<(), Fail> {
    let alloc = rt.alloc();
    let mut store = filled(alloc, &[("names", b"Erika"), ("empty", b"")])?;
    store.fail_at(4)?;
    let rows = [
        ("names", 5, "Erika"),
        ("names", 4, "14 too long names\n"),
        ("empty", 0, ""),
        ("ages", 5, "read fault"),
        ("names", 5, "read fault"),
        ("names", 6, "Erika"),
    ];
    assert!(rt; files_are_read(alloc, &mut store, &rows)?);
    Ok(())
}

#[test]
fn texts(rt: HostRuntime) {
    let rows: [(&[u8], Option<&str>); 7] = [
        (b"", Some("")),
        (b"a\0b", Some("a\0b")),
        (b"\xc3\xa9", Some("\u{e9}")),
        (b"a\xff", None),
        (b"\xc3", None),
        (b"\xc0\x80", None),
        (b"\xed\xa0\x80", None),
    ];
    for (bytes, wanted) in rows {
        assert!(rt; text_of(bytes) == wanted);
    }
}

fn is_reply(reply: &Reply, status: Status, text: &str) -> bool {
    reply.status == status && is_text(reply.text.as_str(), text)
}

#[test]
fn refusals(rt: HostRuntime) -> Result<(), Fail> {
    let alloc = rt.alloc();
    let (long, file, query) = (Status::TooLong, Status::FileRefused, Status::RequestRefused);
    assert!(rt; is_reply(&too_long(alloc, "a b")?, long, "too long a b\n"));
    assert!(rt; is_reply(&file_refused(alloc, "f", 1)?, file, "file refused f 1\n"));
    let last = file_refused(alloc, "", u64::MAX)?;
    assert!(rt; is_reply(&last, file, "file refused  18446744073709551615\n"));
    assert!(rt; is_reply(&query_refused(alloc, 1)?, query, "refused query 1\n"));
    assert!(rt; is_reply(&query_refused(alloc, 22)?, query, "refused query 22\n"));
    Ok(())
}

// Whether a text with a status, in a sink with so much room, ends so.
fn is_finished(
    alloc: Global,
    status: Status,
    text: &str,
    room: usize,
    wanted: Status,
    left: &[u8],
) -> Result<bool, Fail> {
    let mut out = MemorySink::new(alloc, room)?;
    Ok(finish(&mut out, status, text) == wanted && out.bytes() == left)
}

#[test]
fn ends(rt: HostRuntime) -> Result<(), Fail> {
    let alloc = rt.alloc();
    let (done, fault) = (Status::Done, Status::WriteFault);
    assert!(rt; is_finished(alloc, done, "end\n", 4, done, b"end\n")?);
    assert!(rt; is_finished(alloc, done, "end\n", 3, fault, b"end")?);
    assert!(rt; is_finished(alloc, Status::NotOne, "not one\n", 0, fault, b"")?);
    assert!(rt; is_finished(alloc, Status::Usage, "", 0, Status::Usage, b"")?);
    assert!(rt; is_finished(alloc, fault, "end\n", 9, fault, b"end\n")?);
    Ok(())
}

// Whether an end of a command, in a sink with room for all, is answered and printed so.
fn is_closed(
    alloc: Global,
    end: Result<Reply, Stop>,
    wanted: Status,
    left: &[u8],
) -> Result<bool, Fail> {
    let mut out = MemorySink::new(alloc, 99)?;
    Ok(close(&mut out, &end) == wanted && out.bytes() == left)
}

#[test]
fn closes(rt: HostRuntime) -> Result<(), Fail> {
    let alloc = rt.alloc();
    let reply = too_long(alloc, "f")?;
    assert!(rt; is_closed(alloc, Ok(reply), Status::TooLong, b"too long f\n")?);
    let refusal = Stop::Refused(too_long(alloc, "f")?);
    assert!(rt; is_closed(alloc, Err(refusal), Status::TooLong, b"too long f\n")?);
    let read = Stop::Failed(Fault::Read);
    assert!(rt; is_closed(alloc, Err(read), Status::ReadFault, b"read fault\n")?);
    let device = Stop::from(SignError::Failed);
    assert!(rt; is_closed(alloc, Err(device), Status::DeviceFault, b"device fault\n")?);
    let unsigned = Stop::from(SignError::NoMemory);
    assert!(rt; is_closed(alloc, Err(unsigned), Status::NoMemory, b"")?);
    let clock = Stop::Failed(Fault::Clock);
    assert!(rt; is_closed(alloc, Err(clock), Status::ClockFault, b"clock fault\n")?);
    let write = Stop::Failed(Fault::Write);
    assert!(rt; is_closed(alloc, Err(write), Status::WriteFault, b"")?);
    assert!(rt; is_closed(alloc, Err(Stop::NoMemory), Status::NoMemory, b"")?);
    Ok(())
}
