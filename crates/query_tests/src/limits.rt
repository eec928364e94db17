// What is refused and what is read at the limits of queries, paths and values.
use crate::paths::{path_refusal, values_refusal};
use crate::refusals::query_refusal;
use std::alloc::Global;
use std::rt::HostRuntime;
use std::test::Fail;

// A text in which an item stands so many times, with commas between.
fn listed(
    alloc: Global,
    before: &str,
    item: &str,
    count: usize,
    after: &str,
) -> Result<String, Fail> {
    let mut text = String::new(alloc);
    text.push_str(before)?;
    for place in 0..count {
        if place > 0 {
            text.push(',')?;
        }
        text.push_str(item)?;
    }
    text.push_str(after)?;
    Ok(text)
}

// Queries at and over each limit. Those within a limit are read, or refused by a later rule.
fn are_queries_limited(alloc: Global) -> Result<bool, Fail> {
    let credentials = r#"{"credentials":["#;
    let claims = r#"{"credentials":[{"id":"a","format":"dc+sd-jwt","claims":["#;
    let claim_sets =
        r#"{"credentials":[{"id":"a","format":"dc+sd-jwt","claims":[{"id":"c","path":["n"]}],"claim_sets":["#;
    let credential_sets = r#"{"credentials":[{"id":"a","format":"x"}],"credential_sets":["#;
    let options = r#"{"credentials":[{"id":"a","format":"x"}],"credential_sets":[{"options":["#;
    for (before, item, count, after, rule) in [
        (credentials, "0", 17, "]}", Some(2)),
        (credentials, "0", 16, "]}", Some(3)),
        (claims, "{}", 65, "]}]}", Some(11)),
        (claims, "{}", 64, "]}]}", Some(14)),
        (claim_sets, r#"["c"]"#, 33, "]}]}", Some(18)),
        (claim_sets, r#"["c"]"#, 32, "]}]}", None),
        (
            credential_sets,
            r#"{"options":[["a"]]}"#,
            17,
            "]}",
            Some(21),
        ),
        (credential_sets, r#"{"options":[["a"]]}"#, 16, "]}", None),
        (options, r#"["a"]"#, 17, "]}]}", Some(21)),
        (options, r#"["a"]"#, 16, r#"],"required":false}]}"#, None),
    ] {
        let text = listed(alloc, before, item, count, after)?;
        if query_refusal(alloc, text.as_str())? != rule {
            return Ok(false);
        }
    }
    Ok(true)
}

// Paths of 16 steps and more.
fn are_paths_limited(alloc: Global) -> Result<bool, Fail> {
    for (after, rule) in [("]", None), (",0]", Some(4)), (",true]", Some(3))] {
        let text = listed(alloc, "[", "null", 16, after)?;
        if path_refusal(alloc, text.as_str())? != rule {
            return Ok(false);
        }
    }
    Ok(true)
}

// 32 values, and 33.
fn are_values_limited(alloc: Global) -> Result<bool, Fail> {
    for (after, rule) in [("]", None), (",1]", Some(1))] {
        let text = listed(alloc, "[", "1", 32, after)?;
        if values_refusal(alloc, text.as_str())? != rule {
            return Ok(false);
        }
    }
    Ok(true)
}

#[test]
fn limits(rt: HostRuntime) -> Result<(), Fail> {
    let queries = are_queries_limited(rt.alloc())?;
    let paths = are_paths_limited(rt.alloc())?;
    let values = are_values_limited(rt.alloc())?;
    assert!(rt; queries && paths && values);
    Ok(())
}
