// The rule by which each text is refused as a query.
use dcql_query::{Error, Query};
use serde_json::Value;
use std::alloc::Global;
use std::rt::HostRuntime;
use std::test::Fail;

// The rule by which a text is refused as a query, or none where it is read.
pub(crate) fn query_refusal(alloc: Global, text: &str) -> Result<Option<u8>, Fail> {
    let value = Value::from_str(alloc, text)?;
    match Query::from_json(alloc, &value) {
        Ok(_) => Ok(None),
        Err(Error::Refused(rule)) => Ok(Some(rule)),
        Err(error) => Err(error)?,
    }
}

// Whether each text is refused by the least rule that it breaks.
fn are_refused(alloc: Global) -> Result<bool, Fail> {
    for (text, rule) in [
        // 1: no object, no credentials, none of them
        (r#"[]"#, Some(1)),
        (r#"{}"#, Some(1)),
        (r#"{"credentials":{}}"#, Some(1)),
        (r#"{"credentials":[]}"#, Some(1)),
        // 3: an id
        (r#"{"credentials":[{"format":"x"}]}"#, Some(3)),
        (r#"{"credentials":[{"id":"","format":"x"}]}"#, Some(3)),
        (r#"{"credentials":[{"id":"a.b","format":"x"}]}"#, Some(3)),
        (r#"{"credentials":[{"id":"Az09_-","format":"x"}]}"#, None),
        // 4: equal ids
        (
            r#"{"credentials":[{"id":"a","format":"x"},{"id":"b","format":"x"},{"id":"a","format":"x"}]}"#,
            Some(4),
        ),
        // 5: the format
        (r#"{"credentials":[{"id":"a"}]}"#, Some(5)),
        (r#"{"credentials":[{"id":"a","format":1}]}"#, Some(5)),
        // 6, 7: booleans
        (
            r#"{"credentials":[{"id":"a","format":"dc+sd-jwt","multiple":0}]}"#,
            Some(6),
        ),
        (
            r#"{"credentials":[{"id":"a","format":"dc+sd-jwt","multiple":true}]}"#,
            None,
        ),
        (
            r#"{"credentials":[{"id":"a","format":"dc+sd-jwt","require_cryptographic_holder_binding":"true"}]}"#,
            Some(7),
        ),
        // 8: trusted authorities
        (
            r#"{"credentials":[{"id":"a","format":"dc+sd-jwt","trusted_authorities":null}]}"#,
            Some(8),
        ),
        // 9: meta, by the format
        (
            r#"{"credentials":[{"id":"a","format":"dc+sd-jwt","meta":[]}]}"#,
            Some(9),
        ),
        (
            r#"{"credentials":[{"id":"a","format":"dc+sd-jwt","meta":{"vct_values":[]}}]}"#,
            Some(9),
        ),
        (
            r#"{"credentials":[{"id":"a","format":"dc+sd-jwt","meta":{"vct_values":["k",1]}}]}"#,
            Some(9),
        ),
        (
            r#"{"credentials":[{"id":"a","format":"dc+sd-jwt","meta":{"vct_values":["k"],"doctype_value":1}}]}"#,
            None,
        ),
        (
            r#"{"credentials":[{"id":"a","format":"mso_mdoc","meta":{"doctype_value":1}}]}"#,
            Some(9),
        ),
        (
            r#"{"credentials":[{"id":"a","format":"mso_mdoc","meta":{"vct_values":[]}}]}"#,
            None,
        ),
        (
            r#"{"credentials":[{"id":"a","format":"x","meta":{"vct_values":[],"doctype_value":1}}]}"#,
            None,
        ),
        // 10: the list of claims
        (
            r#"{"credentials":[{"id":"a","format":"dc+sd-jwt","claims":[]}]}"#,
            Some(10),
        ),
        (
            r#"{"credentials":[{"id":"a","format":"dc+sd-jwt","claims":[{"id":"c","path":["n"]},0]}]}"#,
            Some(10),
        ),
        // 12, 13: the ids of claims
        (
            r#"{"credentials":[{"id":"a","format":"dc+sd-jwt","claims":[{"id":"c.","path":["n"]}]}]}"#,
            Some(12),
        ),
        (
            r#"{"credentials":[{"id":"a","format":"dc+sd-jwt","claims":[{"id":"c","path":["n"]},{"path":["m"]},{"id":"c","path":["n"]}]}]}"#,
            Some(13),
        ),
        (
            r#"{"credentials":[{"id":"a","format":"dc+sd-jwt","claims":[{"id":"c","path":["n"]}]},{"id":"b","format":"x","claims":[{"id":"c","path":["n"]}]}]}"#,
            None,
        ),
        // 14, 15: paths
        (
            r#"{"credentials":[{"id":"a","format":"dc+sd-jwt","claims":[{"id":"c"}]}]}"#,
            Some(14),
        ),
        (
            r#"{"credentials":[{"id":"a","format":"dc+sd-jwt","claims":[{"path":[true]}]}]}"#,
            Some(14),
        ),
        (
            r#"{"credentials":[{"id":"a","format":"mso_mdoc","claims":[{"path":["n"]}]}]}"#,
            Some(15),
        ),
        (
            r#"{"credentials":[{"id":"a","format":"mso_mdoc","claims":[{"path":["n",0]}]}]}"#,
            Some(15),
        ),
        (
            r#"{"credentials":[{"id":"a","format":"mso_mdoc","claims":[{"path":["n","m","o"]}]}]}"#,
            Some(15),
        ),
        (
            r#"{"credentials":[{"id":"a","format":"mso_mdoc","claims":[{"path":["n","m"]}]}]}"#,
            None,
        ),
        // 16: values
        (
            r#"{"credentials":[{"id":"a","format":"dc+sd-jwt","claims":[{"path":["n"],"values":[]}]}]}"#,
            Some(16),
        ),
        (
            r#"{"credentials":[{"id":"a","format":"dc+sd-jwt","claims":[{"path":["n"],"values":["v",1,true]}]}]}"#,
            None,
        ),
        // 17: the list of claim sets
        (
            r#"{"credentials":[{"id":"a","format":"dc+sd-jwt","claim_sets":[["c"]]}]}"#,
            Some(17),
        ),
        (
            r#"{"credentials":[{"id":"a","format":"dc+sd-jwt","claims":[{"id":"c","path":["n"]}],"claim_sets":[]}]}"#,
            Some(17),
        ),
        (
            r#"{"credentials":[{"id":"a","format":"dc+sd-jwt","claims":[{"id":"c","path":["n"]}],"claim_sets":[["c"],[]]}]}"#,
            Some(17),
        ),
        (
            r#"{"credentials":[{"id":"a","format":"dc+sd-jwt","claims":[{"id":"c","path":["n"]}],"claim_sets":[["c",1]]}]}"#,
            Some(17),
        ),
        // 19, 20: what claim sets name
        (
            r#"{"credentials":[{"id":"a","format":"dc+sd-jwt","claims":[{"id":"c","path":["n"]},{"path":["m"]}],"claim_sets":[["c"]]}]}"#,
            Some(19),
        ),
        (
            r#"{"credentials":[{"id":"a","format":"dc+sd-jwt","claims":[{"id":"c","path":["n"]}],"claim_sets":[["c"],["z"]]}]}"#,
            Some(20),
        ),
        (
            r#"{"credentials":[{"id":"a","format":"dc+sd-jwt","claims":[{"id":"c","path":["n"]}],"claim_sets":[["d"]]},{"id":"b","format":"x","claims":[{"id":"d","path":["m"]}]}]}"#,
            Some(20),
        ),
        // 21: credential sets
        (
            r#"{"credentials":[{"id":"a","format":"x"}],"credential_sets":[]}"#,
            Some(21),
        ),
        (
            r#"{"credentials":[{"id":"a","format":"x"}],"credential_sets":[{}]}"#,
            Some(21),
        ),
        (
            r#"{"credentials":[{"id":"a","format":"x"}],"credential_sets":[{"options":[]}]}"#,
            Some(21),
        ),
        (
            r#"{"credentials":[{"id":"a","format":"x"}],"credential_sets":[{"options":[["a"],[]]}]}"#,
            Some(21),
        ),
        (
            r#"{"credentials":[{"id":"a","format":"x"}],"credential_sets":[{"options":[["a"]],"required":null}]}"#,
            Some(21),
        ),
        // 22: what options name
        (
            r#"{"credentials":[{"id":"a","format":"x"}],"credential_sets":[{"options":[["a"],["a","b"]]}]}"#,
            Some(22),
        ),
        // two that are broken, the lesser of them later
        (r#"{"credentials":[{"id":"a"},{"id":"a"}]}"#, Some(4)),
        (
            r#"{"credentials":[{"id":"a","format":"mso_mdoc","claims":[{"path":[]}]},{"id":"b"}]}"#,
            Some(5),
        ),
        (
            r#"{"credentials":[{"id":"a","format":"dc+sd-jwt","claims":[{"path":["n"],"values":[]},{"path":[]}]}]}"#,
            Some(14),
        ),
        (
            r#"{"credentials":[{"id":"a","format":"dc+sd-jwt","claims":[{"id":"c","path":["n"]}],"claim_sets":[["z"]]},{"id":"b","format":"x","claims":[{"id":"c","path":["n"]},{"id":"c","path":["n"]}]}]}"#,
            Some(13),
        ),
        (
            r#"{"credentials":[{"id":"a","format":"dc+sd-jwt","claim_sets":[]}],"credential_sets":[{"options":[["z"]]}]}"#,
            Some(17),
        ),
        (
            r#"{"credentials":[{"id":"a","format":"x"}],"credential_sets":[{"options":[["z"]]},{}]}"#,
            Some(21),
        ),
    ] {
        if query_refusal(alloc, text)? != rule {
            return Ok(false);
        }
    }
    Ok(true)
}

#[test]
fn least_broken_rule(rt: HostRuntime) -> Result<(), Fail> {
    let right = are_refused(rt.alloc())?;
    assert!(rt; right);
    Ok(())
}
