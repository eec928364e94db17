// What the tests share: files in memory, and what a run of the wallet comes to, as one text.
use outside::{MemorySink, MemoryStore, Status};
use std::alloc::{AllocError, Global};
use std::test::Fail;
use wallet_top::run;

// A store with these files.
pub fn filled(alloc: Global, files: &[(&str, &[u8])]) -> Result<MemoryStore, Fail> {
    let mut store = MemoryStore::new(alloc);
    for (name, bytes) in files {
        store.put(name, bytes)?;
    }
    Ok(store)
}

// How a run of these words ends, unless memory runs out.
pub fn status_of(
    alloc: Global,
    texts: &[&str],
    store: &mut MemoryStore,
    out: &mut MemorySink,
) -> Result<Status, Fail> {
    let mut words = Vec::new(alloc);
    for text in texts {
        words.push(String::from_str(alloc, text)?)?;
    }
    match run(alloc, &words, store, out) {
        Status::NoMemory => Err(AllocError)?,
        status => Ok(status),
    }
}

// The exit status of a run of these words, and what it prints where there is room for so many bytes.
pub fn told_of(
    alloc: Global,
    texts: &[&str],
    store: &mut MemoryStore,
    room: usize,
) -> Result<String, Fail> {
    let mut out = MemorySink::new(alloc, room)?;
    let code = status_of(alloc, texts, store, &mut out)?.code();
    let printed = text_of(out.bytes());
    Ok(format!(in alloc; "{code} {printed}")?)
}

// The same over these files, with room for all.
pub fn told(alloc: Global, texts: &[&str], files: &[(&str, &[u8])]) -> Result<String, Fail> {
    told_of(alloc, texts, &mut filled(alloc, files)?, 9999)
}

fn text_of(bytes: &[u8]) -> &str {
    match str::from_utf8(bytes) {
        Ok(text) => text,
        Err(_) => "no text",
    }
}

pub fn is_text(found: &str, wanted: &str) -> bool {
    found == wanted
}

// The same line so many times.
pub fn repeated(alloc: Global, line: &[u8], count: usize) -> Result<Vec<u8>, Fail> {
    let mut lines = Vec::new(alloc);
    for _ in 0..count {
        lines.extend_from_slice(line)?;
    }
    Ok(lines)
}
