// What claim sets show of trees.
use crate::hits::listed;
use claim_tree::PlainTree;
use credential_matching::shown_for;
use dcql_query::Query;
use serde_json::Value;
use std::alloc::Global;
use std::rt::HostRuntime;
use std::test::Fail;

const ADULT: &str =
    r#"{"credentials":[{"id":"p","format":"dc+sd-jwt","claims":[{"id":"g","path":["given_name"]},{"id":"a","path":["age_equal_or_over","18"]},{"id":"n","path":["cities",null]},{"id":"s","path":["cities",1]}],"claim_sets":[["s","g","a","n"],["g"],["s","g"]]}]}"#;

const TREE: &str =
    r#"{"age_equal_or_over":{"16":true,"18":true},"cities":["Ulm","Bonn"],"given_name":"Ida"}"#;

fn is_shown(alloc: Global, set: usize, tree: &str, wanted: &str) -> Result<bool, Fail> {
    let value = Value::from_str(alloc, ADULT)?;
    let query = Query::from_json(alloc, &value)?;
    let tree = PlainTree::read(alloc, tree)?;
    if query.len() == 0 || set >= query.at(0).set_count() {
        return Ok(false);
    }
    let found = shown_for(alloc, query.at(0), set, tree.root())?;
    let text = listed(alloc, &found)?;
    Ok(text.as_str() == wanted)
}

fn are_shown(alloc: Global) -> Result<bool, Fail> {
    for (set, tree, wanted) in [
        (
            0,
            TREE,
            "age_equal_or_over 18 ,cities 0 ,cities 1 ,given_name ,",
        ),
        (1, TREE, "given_name ,"),
        (2, TREE, "cities 1 ,given_name ,"),
        (2, r#"{"given_name":"Ida"}"#, "given_name ,"),
        (0, "{}", ""),
    ] {
        if !is_shown(alloc, set, tree, wanted)? {
            return Ok(false);
        }
    }
    Ok(true)
}

#[test]
fn claim_sets_show_what_they_ask_for(rt: HostRuntime) -> Result<(), Fail> {
    let shown = are_shown(rt.alloc())?;
    assert!(rt; shown);
    Ok(())
}
