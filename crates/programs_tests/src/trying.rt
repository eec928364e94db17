// Whole runs of `try` over forms in memory.
use crate::told::{filled, is_text, repeated, told, told_of};
use outside::MemoryStore;
use std::alloc::Global;
use std::test::Fail;

const QUERY: &str =
    r#"{"credentials":[{"id":"a","format":"dc+sd-jwt","claims":[{"path":["given_name"]}]}]}"#;

const TREES: &str = "{\"given_name\":\"Erika\"}\n{\"family_name\":\"M\"}\n{\"given_name\":null}\n";

const MATCHES: &str = "0 match 0\nmatch 2\nend\n";

// The query with other members in its credential query.
fn query_with(alloc: Global, members: &str) -> Result<String, Fail> {
    Ok(format!(in alloc; "{{\"credentials\":[{{\"id\":\"a\",\"format\":\"f\",{members}}}]}}")?)
}

// Whether `try q t` comes to this over this query and these trees.
fn is_tried(alloc: Global, query: &[u8], trees: &[u8], wanted: &str) -> Result<bool, Fail> {
    let found = told(alloc, &["try", "q", "t"], &[("q", query), ("t", trees)])?;
    Ok(is_text(found.as_str(), wanted))
}

fn trees_are_tried(alloc: Global, rows: &[(&[u8], &str)]) -> Result<bool, Fail> {
    for (trees, wanted) in rows {
        if !is_tried(alloc, QUERY.as_bytes(), trees, wanted)? {
            return Ok(false);
        }
    }
    Ok(true)
}

fn queries_are_tried(alloc: Global, rows: &[(&str, &[u8], &str)]) -> Result<bool, Fail> {
    for (query, trees, wanted) in rows {
        if !is_tried(alloc, query.as_bytes(), trees, wanted)? {
            return Ok(false);
        }
    }
    Ok(true)
}

#[test]
fn trees(rt: HostRuntime) -> Result<(), Fail> {
    let alloc = rt.alloc();
    let full = repeated(alloc, b"0\n", 1024)?;
    let too_many = repeated(alloc, b"0\n", 1025)?;
    let rows: [(&[u8], &str); 9] = [
        (TREES.as_bytes(), MATCHES),
        (b"", "5 none\n"),
        (b"0\r\n", "5 none\n"),
        (b"{}\n{\"given_name\":1}", "0 match 1\nend\n"),
        (b"{\"given_name\":1}\n{", "12 file refused t 2\n"),
        (b"0\n\n", "12 file refused t 2\n"),
        (b"0\n\xff", "12 file refused t 1\n"),
        (&full, "5 none\n"),
        (&too_many, "12 file refused t 1025\n"),
    ];
    assert!(rt; trees_are_tried(alloc, &rows)?);
    Ok(())
}

#[test]
fn queries(rt: HostRuntime) -> Result<(), Fail> {
    let alloc = rt.alloc();
    let two_names = query_with(alloc, r#""claims":[{"path":["a","b"]}]"#)?;
    let two_sets = query_with(
        alloc,
        r#""claims":[{"id":"x","path":["x"]},{"id":"y","path":["y"]}],"claim_sets":[["x","y"],["y"]]"#,
    )?;
    let rows: [(&str, &[u8], &str); 3] = [
        (
            r#"{"credentials":[{"id":"a","format":"f"}]}"#,
            b"0",
            "0 match 0\nend\n",
        ),
        (
            &two_names,
            b"{\"a\":{\"b\":0}}\n{\"a\":\"b\"}\n",
            "0 match 0\nend\n",
        ),
        (&two_sets, b"{\"x\":0}\n{\"y\":0}\n", "0 match 1\nend\n"),
    ];
    assert!(rt; queries_are_tried(alloc, &rows)?);
    Ok(())
}

// Queries that are refused, and which refusal comes first.
#[test]
fn refused_queries(rt: HostRuntime) -> Result<(), Fail> {
    let alloc = rt.alloc();
    let no_path = query_with(alloc, r#""claims":[{"path":[]}]"#)?;
    let rows: [(&str, &[u8], &str); 6] = [
        ("", b"0", "12 file refused q 1\n"),
        ("{", b"{", "12 file refused q 1\n"),
        ("{}", b"0", "3 refused query 1\n"),
        (&no_path, b"0", "3 refused query 14\n"),
        (&no_path, b"{", "12 file refused t 1\n"),
        (
            r#"{"credentials":[{"id":"a","format":"f"},{"id":"b","format":"f"}]}"#,
            b"0",
            "17 not one\n",
        ),
    ];
    assert!(rt; queries_are_tried(alloc, &rows)?);
    Ok(())
}

// Whether `try q t` comes to this where the call of this number fails and there is room for so many bytes.
fn is_tried_where(alloc: Global, failing: u64, room: usize, wanted: &str) -> Result<bool, Fail> {
    let files: [(&str, &[u8]); 2] = [("q", QUERY.as_bytes()), ("t", TREES.as_bytes())];
    let mut store = filled(alloc, &files)?;
    store.fail_at(failing)?;
    let found = told_of(alloc, &["try", "q", "t"], &mut store, room)?;
    Ok(is_text(found.as_str(), wanted))
}

fn are_tried_where(alloc: Global, rows: &[(u64, usize, &str)]) -> Result<bool, Fail> {
    for (failing, room, wanted) in rows {
        if !is_tried_where(alloc, *failing, *room, wanted)? {
            return Ok(false);
        }
    }
    Ok(true)
}

// Reads that fail, and sinks with little room.
#[test]
fn faults(rt: HostRuntime) -> Result<(), Fail> {
    let rows = [
        (0, 99, "6 read fault\n"),
        (1, 99, "6 read fault\n"),
        (2, 99, MATCHES),
        (2, 20, MATCHES),
        (2, 9, "7 match 0\nm"),
        (2, 0, "7 "),
    ];
    assert!(rt; are_tried_where(rt.alloc(), &rows)?);
    Ok(())
}

// One line that matches, padded to so many bytes.
fn padded(alloc: Global, size: usize) -> Result<Vec<u8>, Fail> {
    let mut bytes = Vec::from_slice(alloc, b"{\"given_name\":1}")?;
    for _ in bytes.len()..size {
        bytes.push(b' ')?;
    }
    Ok(bytes)
}

// Files of the greatest size and past it, a query that is no text, and no file.
#[test]
fn files(rt: HostRuntime) -> Result<(), Fail> {
    let alloc = rt.alloc();
    let most = padded(alloc, 1_048_576)?;
    let more = padded(alloc, 1_048_577)?;
    let (query, trees) = (QUERY.as_bytes(), TREES.as_bytes());
    assert!(rt; is_tried(alloc, query, &most, "0 match 0\nend\n")?);
    assert!(rt; is_tried(alloc, query, &more, "14 too long t\n")?);
    assert!(rt; is_tried(alloc, &more, trees, "14 too long q\n")?);
    assert!(rt; is_tried(alloc, b"\"\xff\"", trees, "12 file refused q 1\n")?);
    assert!(rt; is_without_files(alloc, &["try", "q", "t"], "6 read fault\n")?);
    assert!(rt; is_without_files(alloc, &["try", "q"], "2 usage\n")?);
    Ok(())
}

fn is_without_files(alloc: Global, words: &[&str], wanted: &str) -> Result<bool, Fail> {
    let found = told_of(alloc, words, &mut MemoryStore::new(alloc), 99)?;
    Ok(is_text(found.as_str(), wanted))
}
