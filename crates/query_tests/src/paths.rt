// The rule by which each text is refused as a path or as values.
use claim_path::{Error, Path, Values};
use serde_json::Value;
use std::alloc::Global;
use std::rt::HostRuntime;
use std::test::Fail;

// The rule by which a path or values are refused, or none where they are read.
fn refusal<T: Drop>(read: Result<T, Error>) -> Result<Option<u8>, Fail> {
    match read {
        Ok(_) => Ok(None),
        Err(Error::Refused(rule)) => Ok(Some(rule)),
        Err(error) => Err(error)?,
    }
}

pub(crate) fn path_refusal(alloc: Global, text: &str) -> Result<Option<u8>, Fail> {
    let value = Value::from_str(alloc, text)?;
    refusal(Path::from_json(alloc, &value))
}

pub(crate) fn values_refusal(alloc: Global, text: &str) -> Result<Option<u8>, Fail> {
    let value = Value::from_str(alloc, text)?;
    refusal(Values::from_json(alloc, &value))
}

fn are_paths_refused(alloc: Global) -> Result<bool, Fail> {
    for (text, rule) in [
        (r#"["",null,18446744073709551615]"#, None),
        (r#""a""#, Some(1)),
        ("{}", Some(1)),
        ("[]", Some(2)),
        (r#"["a",true]"#, Some(3)),
        ("[-1]", Some(3)),
        ("[0.5]", Some(3)),
        ("[18446744073709551616]", Some(3)),
        (r#"[["a"]]"#, Some(3)),
    ] {
        if path_refusal(alloc, text)? != rule {
            return Ok(false);
        }
    }
    Ok(true)
}

fn are_values_refused(alloc: Global) -> Result<bool, Fail> {
    for (text, rule) in [
        (
            r#"["",false,-9223372036854775808,18446744073709551615]"#,
            None,
        ),
        ("1", Some(1)),
        (r#"{"a":1}"#, Some(1)),
        ("[]", Some(1)),
        ("[1,null]", Some(1)),
        ("[1.5]", Some(1)),
        ("[18446744073709551616]", Some(1)),
        ("[[1]]", Some(1)),
        ("[{}]", Some(1)),
    ] {
        if values_refusal(alloc, text)? != rule {
            return Ok(false);
        }
    }
    Ok(true)
}

// How many steps and values there are, and whether a path is two names.
fn are_measured(alloc: Global) -> Result<bool, Fail> {
    for (text, count, two_names) in [
        (r#"["a"]"#, 1, false),
        (r#"["a","b"]"#, 2, true),
        (r#"["a",null]"#, 2, false),
        (r#"["a","b","c"]"#, 3, false),
    ] {
        let value = Value::from_str(alloc, text)?;
        let path = Path::from_json(alloc, &value)?;
        if path.len() != count || path.is_two_names() != two_names {
            return Ok(false);
        }
    }
    let value = Value::from_str(alloc, "[1,2,3]")?;
    let values = Values::from_json(alloc, &value)?;
    Ok(values.len() == 3)
}

#[test]
fn paths_are_read(rt: HostRuntime) -> Result<(), Fail> {
    let paths = are_paths_refused(rt.alloc())?;
    let values = are_values_refused(rt.alloc())?;
    let measured = are_measured(rt.alloc())?;
    assert!(rt; paths && values && measured);
    Ok(())
}
