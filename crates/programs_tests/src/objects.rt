// The forms of store and sink in memory, call by call, and the store of the system.
use outside::{Failed, FileStore, MemorySink, MemoryStore, Sink, Store, StoreError, put_all};
use std::alloc::{AllocError, Global};
use std::fs;
use std::test::Fail;

// A read by the name and the limit, and what it gives: the bytes, or the name of the error.
type ReadRow<'a> = (&'a str, usize, Result<&'a [u8], StoreError>);

fn is_read<S: Store>(alloc: Global, store: &mut S, row: &ReadRow<'_>) -> Result<bool, Fail> {
    let (name, limit, wanted) = row;
    match store.read(alloc, name, *limit) {
        Ok(bytes) => Ok(Ok(bytes.as_slice()) == *wanted),
        Err(StoreError::NoMemory) => Err(AllocError)?,
        Err(error) => Ok(Err(error) == *wanted),
    }
}

fn are_read<S: Store>(alloc: Global, store: &mut S, rows: &[ReadRow<'_>]) -> Result<bool, Fail> {
    for row in rows {
        if !is_read(alloc, store, row)? {
            return Ok(false);
        }
    }
    Ok(true)
}

// Whether the reads of the rows are on record, in their order.
fn are_recorded(store: &MemoryStore, rows: &[ReadRow<'_>]) -> bool {
    if store.reads().len() != rows.len() {
        return false;
    }
    for (read, (name, limit, _)) in store.reads().iter().zip(rows) {
        if read.name.as_str() != *name || read.limit != *limit {
            return false;
        }
    }
    true
}

// A store with the last of two files of one name, and an empty file, in which call 3 fails.
fn names_store(alloc: Global) -> Result<MemoryStore, Fail> {
    let mut store = MemoryStore::new(alloc);
    store.put("names", b"Max")?;
    store.put("names", b"Erika")?;
    store.put("", b"")?;
    store.fail_at(3)?;
    Ok(store)
}

#[test]
fn reads_from_memory(rt: HostRuntime) -> Result<(), Fail> {
    let mut store = names_store(rt.alloc())?;
    let rows: [ReadRow<'_>; 7] = [
        ("names", 5, Ok(b"Erika")),
        ("names", 4, Err(StoreError::TooLong)),
        ("ages", 5, Err(StoreError::Failed)),
        ("names", 5, Err(StoreError::Failed)),
        ("names", 6, Ok(b"Erika")),
        ("", 0, Ok(b"")),
        ("Names", 5, Err(StoreError::Failed)),
    ];
    assert!(rt; are_read(rt.alloc(), &mut store, &rows)?);
    assert!(rt; are_recorded(&store, &rows));
    Ok(())
}

// A write of these bytes, what it answers, and what is in the sink after it.
type WriteRow<'a> = (&'a [u8], Result<usize, Failed>, &'a [u8]);

fn are_written(sink: &mut MemorySink, rows: &[WriteRow<'_>]) -> bool {
    for (bytes, wanted, left) in rows {
        if sink.write(bytes) != *wanted || sink.bytes() != *left {
            return false;
        }
    }
    true
}

#[test]
fn writes_to_memory(rt: HostRuntime) -> Result<(), Fail> {
    let mut sink = MemorySink::new(rt.alloc(), 4)?;
    sink.fail_at(1)?;
    let rows: [WriteRow<'_>; 5] = [
        (b"Max", Ok(3), b"Max"),
        (b"im", Err(Failed), b"Max"),
        (b"im", Ok(1), b"Maxi"),
        (b"m", Err(Failed), b"Maxi"),
        (b"", Ok(0), b"Maxi"),
    ];
    assert!(rt; are_written(&mut sink, &rows));
    Ok(())
}

// Whether each of these texts is written whole, or is not, and what is in the sink at the end.
fn are_put(sink: &mut MemorySink, rows: &[(&[u8], bool)], left: &[u8]) -> bool {
    for (bytes, wanted) in rows {
        if put_all(sink, bytes).is_ok() != *wanted {
            return false;
        }
    }
    sink.bytes() == left
}

#[test]
fn puts_to_memory(rt: HostRuntime) -> Result<(), Fail> {
    let mut full = MemorySink::new(rt.alloc(), 9)?;
    let rows: [(&[u8], bool); 2] = [(b"Erika", true), (b"Erika", false)];
    assert!(rt; are_put(&mut full, &rows, b"ErikaErik"));
    let mut failing = MemorySink::new(rt.alloc(), 9)?;
    failing.fail_at(0)?;
    let rows: [(&[u8], bool); 2] = [(b"Erika", false), (b"", true)];
    assert!(rt; are_put(&mut failing, &rows, b""));
    Ok(())
}

#[test]
fn files_of_the_system(rt: HostRuntime) -> Result<(), Fail> {
    let name = "outside.store.test";
    fs::write(&rt, name, "Erika")?;
    let mut store = FileStore::new(rt);
    let rows: [ReadRow<'_>; 5] = [
        (name, 5, Ok(b"Erika")),
        (name, 4, Err(StoreError::TooLong)),
        ("outside.store.none", 5, Err(StoreError::Failed)),
        (".", 5, Err(StoreError::Failed)),
        ("a\0b", 5, Err(StoreError::Failed)),
    ];
    let are_right = are_read(rt.alloc(), &mut store, &rows)?;
    fs::remove_file(&rt, name)?;
    assert!(rt; are_right);
    Ok(())
}
