// What queries mean that break no rule.
use claim_tree::{Format, PlainTree};
use dcql_query::{CredentialQuery, Query, claims_met, is_id};
use serde_json::Value;
use std::alloc::Global;
use std::fmt::Write;
use std::rt::HostRuntime;
use std::test::Fail;

const PERSON: &str =
    r#"{"credentials":[{"id":"p","format":"dc+sd-jwt","multiple":true,"claims":[{"id":"n","path":["name"]},{"id":"c","path":["cities",null],"values":["Bonn"]}],"claim_sets":[["n","c"],["n"]]},{"id":"q","format":"x","require_cryptographic_holder_binding":false}]}"#;

// Two credential sets over three credential queries, with types and with claims but no claim sets.
const TRIP: &str =
    r#"{"credentials":[{"id":"a","format":"dc+sd-jwt","meta":{"vct_values":["k","l"]}},{"id":"b","format":"mso_mdoc","meta":{"doctype_value":"d"}},{"id":"c","format":"mso_mdoc","meta":{"vct_values":["k"]},"claims":[{"path":["n","m"]},{"path":["n","o"]}]}],"credential_sets":[{"options":[["b","a"],["c"],["c","c"]]},{"options":[["a"]],"required":false}]}"#;

fn query_of(alloc: Global, text: &str) -> Result<Query, Fail> {
    let value = Value::from_str(alloc, text)?;
    Ok(Query::from_json(alloc, &value)?)
}

fn format_name(format: Option<Format>) -> &'static str {
    match format {
        Some(Format::SdJwt) => "dc+sd-jwt",
        Some(Format::Mdoc) => "mso_mdoc",
        None => "other",
    }
}

// A credential query: id, format, whether several credentials may be presented, whether they must be bound,
// how many claim sets there are, and which of four types it allows.
fn write_credential(text: &mut String, query: &CredentialQuery) -> Result<(), Fail> {
    write!(text, "{} {}", query.id(), format_name(query.format()))?;
    write!(text, " {} {}", query.multiple(), query.binding())?;
    write!(text, " {}", query.set_count())?;
    for kind in ["k", "l", "d", "z"] {
        if query.allows_kind(kind) {
            write!(text, " {kind}")?;
        }
    }
    text.push(';')?;
    Ok(())
}

// A credential set: the bits of each option, and whether it is required.
fn write_set(text: &mut String, query: &Query, set: usize) -> Result<(), Fail> {
    if set < query.sets() {
        for option in 0..query.options(set) {
            write!(text, "{:03b} ", query.option(set, option))?;
        }
        write!(text, "{};", query.required(set))?;
    }
    Ok(())
}

fn outline(alloc: Global, query: &Query) -> Result<String, Fail> {
    let mut text = String::new(alloc);
    for place in 0..query.len() {
        write_credential(&mut text, query.at(place))?;
    }
    for set in 0..query.sets() {
        write_set(&mut text, query, set)?;
    }
    Ok(text)
}

fn are_outlined(alloc: Global) -> Result<bool, Fail> {
    for (text, wanted) in [
        (
            PERSON,
            "p dc+sd-jwt true true 2 k l d z;q other false false 1 k l d z;",
        ),
        (
            TRIP,
            "a dc+sd-jwt false true 1 k l;b mso_mdoc false true 1 d;c mso_mdoc false true 1 k l d z;011 100 100 true;001 false;",
        ),
    ] {
        let query = query_of(alloc, text)?;
        let text = outline(alloc, &query)?;
        if text.as_str() != wanted {
            return Ok(false);
        }
    }
    Ok(true)
}

fn are_placed(alloc: Global) -> Result<bool, Fail> {
    for (text, id, place) in [
        (PERSON, "p", Some(0)),
        (PERSON, "q", Some(1)),
        (PERSON, "r", None),
        (TRIP, "c", Some(2)),
        (TRIP, "", None),
    ] {
        let query = query_of(alloc, text)?;
        if query.place_of(id) != place {
            return Ok(false);
        }
    }
    Ok(true)
}

// Whether a claim set of a credential query is met by the tree of a text.
fn is_met(query: &CredentialQuery, set: usize, tree: &PlainTree) -> bool {
    set < query.set_count() && claims_met(query, set, tree.root())
}

fn are_met(alloc: Global) -> Result<bool, Fail> {
    for (text, place, set, tree, met) in [
        (PERSON, 0, 0, r#"{"name":null,"cities":["Ulm"]}"#, false),
        (
            PERSON,
            0,
            0,
            r#"{"name":null,"cities":["Ulm","Bonn"]}"#,
            true,
        ),
        (PERSON, 0, 1, r#"{"name":null,"cities":["Ulm"]}"#, true),
        (PERSON, 1, 0, r#"{"name":null,"cities":["Ulm"]}"#, true),
        (TRIP, 0, 0, "{}", true),
        (TRIP, 1, 0, "{}", true),
        (TRIP, 2, 0, r#"{"n":{"m":1,"o":2}}"#, true),
        (TRIP, 2, 0, r#"{"n":{"m":1}}"#, false),
        (TRIP, 2, 0, r#"{"n":{"o":2}}"#, false),
    ] {
        let query = query_of(alloc, text)?;
        let tree = PlainTree::read(alloc, tree)?;
        if place >= query.len() || is_met(query.at(place), set, &tree) != met {
            return Ok(false);
        }
    }
    Ok(true)
}

fn are_ids() -> bool {
    for (text, right) in [
        ("Az09_-", true),
        ("-", true),
        ("", false),
        ("a.b", false),
        ("a b", false),
        ("é", false),
    ] {
        if is_id(text) != right {
            return false;
        }
    }
    true
}

#[test]
fn queries_are_read(rt: HostRuntime) -> Result<(), Fail> {
    let outlined = are_outlined(rt.alloc())?;
    let placed = are_placed(rt.alloc())?;
    let met = are_met(rt.alloc())?;
    assert!(rt; outlined && placed && met && are_ids());
    Ok(())
}
