// What is issued, byte for byte, and each rule of specs.
use crate::fixtures::{
    LICENCE, LICENCE_SPEC, NATIONALITIES, NATIONALITIES_SPEC, PERSON, PERSON_SPEC,
};
use crate::told::{are_told, told};
use claim_tree::KeyName;
use key_device::MemoryDevice;
use std::alloc::Global;
use std::test::Fail;

#[test]
fn fixtures(rt: HostRuntime) -> Result<(), Fail> {
    let rows = [
        (PERSON_SPEC, PERSON),
        (NATIONALITIES_SPEC, NATIONALITIES),
        (LICENCE_SPEC, LICENCE),
    ];
    assert!(rt; are_told(rt.alloc(), &rows)?);
    Ok(())
}

// The spec of an SD-JWT VC with these claims, addresses to hide and further members.
fn sd_jwt(alloc: Global, claims: &str, hide: &str, more: &str) -> Result<String, Fail> {
    let key = r#"kid:[\"https://pid.example\",\"p1\"]"#;
    Ok(format!(in alloc;
        "{{\"claims\":{claims},\"format\":\"dc+sd-jwt\",\"hide\":{hide},\"key\":\"{key}\",\"kind\":\"t\"{more}}}"
    )?)
}

// The spec of a document with this holder, these namespaces and this second to end with.
fn document(alloc: Global, holder: &str, claims: &str, until: &str) -> Result<String, Fail> {
    Ok(format!(in alloc;
        "{{\"claims\":{claims},\"format\":\"mso_mdoc\",\"from\":0,\"holder\":\"{holder}\",\"key\":\"mkid:6d31\",\"kind\":\"t\",\"until\":{until}}}"
    )?)
}

// Specs of SD-JWT VCs by claims, addresses and further members, with the rule that each breaks.
fn are_refused(alloc: Global, rows: &[(&str, &str, &str, &str)]) -> Result<bool, Fail> {
    for (claims, hide, more, rule) in rows {
        let spec = sd_jwt(alloc, claims, hide, more)?;
        if !are_told(alloc, &[(spec.as_str(), rule)])? {
            return Ok(false);
        }
    }
    Ok(true)
}

// The same of documents, by holder, namespaces and end.
fn are_refused_documents(alloc: Global, rows: &[(&str, &str, &str, &str)]) -> Result<bool, Fail> {
    for (holder, claims, until, rule) in rows {
        let spec = document(alloc, holder, claims, until)?;
        if !are_told(alloc, &[(spec.as_str(), rule)])? {
            return Ok(false);
        }
    }
    Ok(true)
}

// The spec of a list of nationalities, with these addresses to hide and this key.
fn nationalities(alloc: Global, hide: &str, key: &str) -> Result<String, Fail> {
    Ok(format!(in alloc;
        "{{\"claims\":{{\"a\":\"x\",\"nat\":[\"FR\",\"DE\"],\"open\":[\"FR\",\"DE\"]}},\"format\":\"dc+sd-jwt\",\"hide\":{hide},\"key\":\"{key}\",\"kind\":\"t:l\"}}"
    )?)
}

// Addresses to hide, keys, and what each comes to.
fn are_nationalities(alloc: Global, rows: &[(&str, &str, &str)]) -> Result<bool, Fail> {
    for (hide, key, wanted) in rows {
        let spec = nationalities(alloc, hide, key)?;
        if !are_told(alloc, &[(spec.as_str(), wanted)])? {
            return Ok(false);
        }
    }
    Ok(true)
}

#[test]
fn addresses_and_keys(rt: HostRuntime) -> Result<(), Fail> {
    let held = r#"kid:[\"https://pid.example\",\"p1\"]"#;
    let other = r#"kid:[\"https://x.example\",\"p1\"]"#;
    let rows = [
        (r#"[["nat",2]]"#, held, "2"),
        (r#"[["open"],["open"]]"#, held, "3"),
        (r#"[["nat",0],["nat",1]]"#, other, "key missing"),
        (r#"[["nat",2]]"#, other, "2"),
    ];
    assert!(rt; are_nationalities(rt.alloc(), &rows)?);
    Ok(())
}

// Texts that are no spec at all.
#[test]
fn forms(rt: HostRuntime) -> Result<(), Fail> {
    let rows = [
        ("", "1"),
        ("{", "1"),
        ("[]", "1"),
        ("{}", "1"),
        (r#"{"format":"dc+sd-jwt"}"#, "1"),
        (r#"{"format":"mso_mdoc"}"#, "1"),
        (r#"{"format":"jwt_vc"}"#, "1"),
        (
            r#"{"claims":{},"format":"dc+sd-jwt","hide":[],"key":"kid:[\"a\",\"known\"]","kind":"t"}"#,
            "key missing",
        ),
        (
            r#"{"claims":{},"format":"dc+sd-jwt","hide":[["a"]],"key":"kid:[\"a\",\"b\"]","kind":"t"}"#,
            "2",
        ),
        (
            r#"{"claims":{},"format":"dc+sd-jwt","hide":[],"key":"kid:[\"a\", \"b\"]","kind":"t"}"#,
            "1",
        ),
        (
            r#"{"claims":{},"format":"dc+sd-jwt","hide":[],"key":"mkid:6d31","kind":"t"}"#,
            "1",
        ),
        (
            r#"{"claims":{},"format":"dc+sd-jwt","hide":[],"key":"kid:[\"a\",\"b\"]","kind":7}"#,
            "1",
        ),
    ];
    assert!(rt; are_told(rt.alloc(), &rows)?);
    Ok(())
}

#[test]
fn rules_of_sd_jwts(rt: HostRuntime) -> Result<(), Fail> {
    let rows = [
        ("[]", "[]", "", "1"),
        ("{}", "{}", "", "1"),
        ("{}", r#"["a"]"#, "", "1"),
        ("{}", "[[-1]]", "", "1"),
        ("{}", "[[null]]", "", "1"),
        ("{}", "[]", r#","from":-1"#, "1"),
        ("{}", "[]", r#","until":1.5"#, "1"),
        ("{}", "[]", r#","holder":"jwk:{}x""#, "1"),
        ("{}", "[]", r#","holder":"jwk:{ }""#, "1"),
        ("{}", "[]", r#","holder":"jwk:{\"a\":1.5}""#, "1"),
        ("{}", "[[]]", "", "2"),
        (r#"{"a":[0]}"#, r#"[["a",1]]"#, "", "2"),
        (r#"{"a":[0]}"#, r#"[["a","0"]]"#, "", "2"),
        (r#"{"a":{"0":1}}"#, r#"[["a",0]]"#, "", "2"),
        (r#"{"a":1}"#, r#"[["a"],["a"]]"#, "", "3"),
        (r#"{"a":1}"#, r#"[["a"],["a"],["b"]]"#, "", "2"),
        (r#"{"_sd":1}"#, "[]", "", "4"),
        (r#"{"a":[{"...":1}]}"#, r#"[["a"],["a"]]"#, "", "3"),
        (r#"{"a":[{"...":1.5}]}"#, "[]", "", "4"),
        (r#"{"vct":1}"#, "[]", "", "4"),
        (r#"{"status":1}"#, "[]", "", "4"),
        ("{}", "[]", r#","holder":"jwk:{\"_sd\":1}""#, "4"),
        (r#"{"a":1.5}"#, "[]", "", "5"),
        (r#"{"a":1e2}"#, "[]", "", "5"),
    ];
    assert!(rt; are_refused(rt.alloc(), &rows)?);
    Ok(())
}

// A list in so many lists.
fn nested(alloc: Global, levels: usize) -> Result<String, Fail> {
    let mut text = String::from_str(alloc, "{\"a\":")?;
    for _ in 0..levels {
        text.push('[')?;
    }
    for _ in 0..levels {
        text.push(']')?;
    }
    text.push('}')?;
    Ok(text)
}

#[test]
fn levels(rt: HostRuntime) -> Result<(), Fail> {
    let alloc = rt.alloc();
    let deep = nested(alloc, 64)?;
    assert!(rt; are_refused(alloc, &[(deep.as_str(), "[]", "", "5")])?);
    let deep = nested(alloc, 32)?;
    let claims = format!(in alloc; "{{\"n\":{deep}}}")?;
    let holder = "cose:a0";
    assert!(rt; are_refused_documents(alloc, &[(holder, claims.as_str(), "0", "5")])?);
    Ok(())
}

#[test]
fn rules_of_documents(rt: HostRuntime) -> Result<(), Fail> {
    let rows = [
        ("cose:A0", "{}", "0", "1"),
        ("cose:a", "{}", "0", "1"),
        ("cose:b8010102", "{}", "0", "1"),
        ("cose:a10140a0", "{}", "0", "1"),
        ("cose:a101a0", "{}", "0", "1"),
        ("jwk:{}", "{}", "0", "1"),
        ("cose:a0", "{}", "253402300800", "1"),
        ("cose:a0", "[]", "0", "1"),
        ("cose:a0", r#"{"n":[]}"#, "0", "1"),
        ("cose:a0", r#"{"n":{"a":{"$bytes":"f"}}}"#, "0", "1"),
        (
            "cose:a0",
            r#"{"n":{"a":[{"$date":"2000-01-01","b":1}]}}"#,
            "0",
            "1",
        ),
        ("cose:a0", r#"{"n":{"_sd":1.5}}"#, "0", "4"),
        ("cose:a0", r#"{"n":{"a":[1.5]}}"#, "0", "5"),
    ];
    assert!(rt; are_refused_documents(rt.alloc(), &rows)?);
    Ok(())
}

// A device in memory whose call of this number fails.
fn failing(alloc: Global, call: u64) -> Result<MemoryDevice, Fail> {
    let mut names = Vec::new(alloc);
    names.push(KeyName::from_text(alloc, "mkid:6d31")?)?;
    let mut device = MemoryDevice::new(alloc, &names)?;
    device.fail_at(call)?;
    Ok(device)
}

#[test]
fn faults(rt: HostRuntime) -> Result<(), Fail> {
    let alloc = rt.alloc();
    let mut device = failing(alloc, 0)?;
    assert!(rt; told(alloc, LICENCE_SPEC, &mut device)?.as_str() == "device fault");
    assert!(rt; told(alloc, PERSON_SPEC, &mut device)?.as_str() == "key missing");
    assert!(rt; told(alloc, "{}", &mut device)?.as_str() == "1");
    Ok(())
}
