// Tokens that are refused.
use crate::pages::query_of;
use dcql_query::Fits;
use option_list::{Error, read_token};
use std::alloc::Global;
use std::rt::HostRuntime;
use std::test::Fail;

const TWO: &str =
    r#"{"credentials":[{"id":"p","format":"x","multiple":true},{"id":"q-1","format":"x"}]}"#;

fn are_refused(alloc: Global) -> Result<bool, Fail> {
    let query = query_of(alloc, TWO)?;
    let fits = Fits::from_triples(alloc, &[(0, 0, 0), (0, 10, 0), (1, 1, 0)])?;
    for (text, rule) in [
        ("", 1),
        ("p", 1),
        ("p:", 1),
        ("p:0", 1),
        ("p:0.0+", 1),
        ("p:0.0,", 1),
        ("p:00.0+q-1:1.0", 1),
        ("p:+0.0+q-1:1.0", 1),
        ("p:65536.0+q-1:1.0", 1),
        ("p p:0.0+q-1:1.0", 1),
        ("zzz:0.0", 2),
        ("p:65535.0+q-1:1.0", 3),
        ("p:0.0", 3),
        ("q-1:1.0+p:0.0", 3),
        ("p:0.0+q-1:1.0+p:0.0", 3),
        ("p:10.0,0.0+q-1:1.0", 3),
        ("p:0.0,0.0+q-1:1.0", 3),
        ("p:0.0,10.0+q-1:1.0", 0),
    ] {
        if rule_of(read_token(alloc, &query, &fits, text).err()) != rule {
            return Ok(false);
        }
    }
    Ok(true)
}

fn rule_of(error: Option<Error>) -> u8 {
    match error {
        Some(Error::Refused(rule)) => rule,
        Some(Error::NoMemory) => 255,
        None => 0,
    }
}

#[test]
fn tokens_are_refused(rt: HostRuntime) -> Result<(), Fail> {
    let refused = are_refused(rt.alloc())?;
    assert!(rt; refused);
    Ok(())
}
