// Which files runs ask for, and in which order.
use crate::told::{filled, is_text, repeated, told_of};
use outside::MemoryStore;
use std::alloc::Global;
use std::test::Fail;

const QUERY: &str =
    r#"{"credentials":[{"id":"a","format":"dc+sd-jwt","claims":[{"path":["given_name"]}]}]}"#;

// A store with a query, which the empty name has too, a query that breaks a rule, trees, wallets and two
// files of which neither is a credential. One wallet names a file that is not there, and one a file that is
// too long.
fn stored(alloc: Global) -> Result<MemoryStore, Fail> {
    let files: [(&str, &[u8]); 10] = [
        ("q", QUERY.as_bytes()),
        ("", QUERY.as_bytes()),
        ("broken", b"{}"),
        ("t", b"{}\n"),
        ("x", b"x"),
        ("y", b"y"),
        ("w", b"dc+sd-jwt x\nmso_mdoc y\ndc+sd-jwt x"),
        ("gap", b"dc+sd-jwt x\ndc+sd-jwt none\ndc+sd-jwt y"),
        ("past", b"dc+sd-jwt long\ndc+sd-jwt y"),
        ("empty", b""),
    ];
    let mut store = filled(alloc, &files)?;
    store.put("long", &repeated(alloc, b".", 262_145)?)?;
    Ok(store)
}

// The names that a store was asked for, a blank after each.
fn names_read(alloc: Global, store: &MemoryStore) -> Result<String, Fail> {
    let mut names = String::new(alloc);
    for read in store.reads() {
        names.push_str(read.name.as_str())?;
        names.push(' ')?;
    }
    Ok(names)
}

// Whether a run of these words over the store begins to print this, and asks for these names.
fn asks(
    alloc: Global,
    store: &mut MemoryStore,
    words: &[&str],
    told: &str,
    names: &str,
) -> Result<bool, Fail> {
    let found = told_of(alloc, words, store, 999)?;
    let read = names_read(alloc, store)?;
    Ok(found.as_str().starts_with(told) && is_text(read.as_str(), names))
}

fn ask(alloc: Global, word: &str, rows: &[(&str, &str, &str, &str)]) -> Result<bool, Fail> {
    for (query, other, told, names) in rows {
        if !asks(
            alloc,
            &mut stored(alloc)?,
            &[word, query, other],
            told,
            names,
        )? {
            return Ok(false);
        }
    }
    Ok(true)
}

#[test]
fn files_of_try(rt: HostRuntime) -> Result<(), Fail> {
    let rows = [
        ("q", "t", "5 ", "q t "),
        ("q", "q", "5 ", "q q "),
        ("", "t", "5 ", " t "),
        ("none", "t", "6 ", "none "),
        ("long", "t", "12 ", "long "),
        ("x", "t", "12 ", "x "),
        ("q", "none", "6 ", "q none "),
        ("q", "x", "12 ", "q x "),
        ("broken", "t", "3 ", "broken t "),
    ];
    assert!(rt; ask(rt.alloc(), "try", &rows)?);
    Ok(())
}

#[test]
fn files_of_list(rt: HostRuntime) -> Result<(), Fail> {
    let rows = [
        ("q", "w", "5 ", "q w x y x "),
        ("q", "empty", "5 ", "q empty "),
        ("", "w", "5 ", " w x y x "),
        ("q", "", "12 ", "q  "),
        ("none", "w", "6 ", "none "),
        ("x", "w", "12 ", "x "),
        ("q", "none", "6 ", "q none "),
        ("q", "t", "12 ", "q t "),
        ("q", "gap", "6 ", "q gap x none "),
        ("q", "past", "14 ", "q past long "),
        ("broken", "w", "3 ", "broken w x y x "),
    ];
    assert!(rt; ask(rt.alloc(), "list", &rows)?);
    Ok(())
}

// Words that are no command.
fn is_no_command(alloc: Global, words: &[&str]) -> Result<bool, Fail> {
    asks(alloc, &mut stored(alloc)?, words, "2 usage\n", "")
}

#[test]
fn no_file_for_usage(rt: HostRuntime) -> Result<(), Fail> {
    let alloc = rt.alloc();
    let none: [&str; 0] = [];
    assert!(rt; is_no_command(alloc, &none)?);
    assert!(rt; is_no_command(alloc, &["try"])?);
    assert!(rt; is_no_command(alloc, &["list", "q"])?);
    assert!(rt; is_no_command(alloc, &["Try", "q", "t"])?);
    assert!(rt; is_no_command(alloc, &["lists", "q", "w"])?);
    assert!(rt; is_no_command(alloc, &["try", "q", "t", ""])?);
    Ok(())
}

fn list_up_to(alloc: Global, rows: &[(u64, &str, &str)]) -> Result<bool, Fail> {
    for (failing, told, names) in rows {
        let mut store = stored(alloc)?;
        store.fail_at(*failing)?;
        if !asks(alloc, &mut store, &["list", "q", "w"], told, names)? {
            return Ok(false);
        }
    }
    Ok(true)
}

#[test]
fn up_to_a_fault(rt: HostRuntime) -> Result<(), Fail> {
    let rows = [
        (0, "6 ", "q "),
        (1, "6 ", "q w "),
        (2, "6 ", "q w x "),
        (4, "6 ", "q w x y x "),
        (5, "5 ", "q w x y x "),
    ];
    assert!(rt; list_up_to(rt.alloc(), &rows)?);
    Ok(())
}

// The limits that the reads of a run are made with, a blank after each.
fn limits_of(alloc: Global, words: &[&str]) -> Result<String, Fail> {
    let mut store = stored(alloc)?;
    let _told = told_of(alloc, words, &mut store, 999)?;
    let mut limits = String::new(alloc);
    for read in store.reads() {
        let limit = read.limit;
        write!(&mut limits, "{limit} ")?;
    }
    Ok(limits)
}

#[test]
fn limits_of_reads(rt: HostRuntime) -> Result<(), Fail> {
    let alloc = rt.alloc();
    let of_try = limits_of(alloc, &["try", "q", "t"])?;
    assert!(rt; is_text(of_try.as_str(), "1048576 1048576 "));
    let of_list = limits_of(alloc, &["list", "q", "w"])?;
    assert!(rt; is_text(of_list.as_str(), "1048576 1048576 262144 262144 262144 "));
    Ok(())
}
