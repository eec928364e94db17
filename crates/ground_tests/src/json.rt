// JSON texts, and looking into JSON values.
use crate::told::{Call, answer, are_told};
use json_forms::{
    are_objects, are_text_lists, are_texts, elements, elements_at, has_float, is_text_list,
    read_json, text_at,
};
use serde_json::Value;
use std::alloc::Global;
use std::test::Fail;

pub fn is_json(alloc: Global, bytes: &[u8]) -> Result<bool, Fail> {
    Ok(read_json(alloc, bytes)?.is_some())
}

pub fn is_text(alloc: Global, text: &str) -> Result<String, Fail> {
    answer(alloc, is_json(alloc, text.as_bytes())?)
}

// The number of elements, whether it is a list of strings, the string and the number of elements at the name
// `n`.
pub fn look_into(alloc: Global, text: &str) -> Result<String, Fail> {
    let value = Value::from_str(alloc, text)?;
    let count = elements(&value).len();
    let listed = if is_text_list(&value) { "listed" } else { "-" };
    let at_name = text_at(&value, "n").unwrap_or("-");
    let count_at_name = elements_at(&value, "n").len();
    Ok(format!(in alloc; "{count} {listed} {at_name} {count_at_name}")?)
}

fn mark(is: bool, word: &'static str) -> &'static str {
    if is { word } else { "-" }
}

pub fn kinds(alloc: Global, text: &str) -> Result<String, Fail> {
    let value = Value::from_str(alloc, text)?;
    let list = elements(&value);
    let texts = mark(are_texts(list), "texts");
    let objects = mark(are_objects(list), "objects");
    let lists = mark(are_text_lists(list), "lists");
    Ok(format!(in alloc; "{texts} {objects} {lists}")?)
}

pub fn float(alloc: Global, text: &str) -> Result<String, Fail> {
    let value = Value::from_str(alloc, text)?;
    answer(alloc, has_float(&value))
}

#[test]
fn looks_into_values(rt: HostRuntime) -> Result<(), Fail> {
    let rows = [
        (Call::LookInto, "null", "0 - - 0"),
        (Call::LookInto, "\"n\"", "0 - - 0"),
        (Call::LookInto, "[]", "0 - - 0"),
        (Call::LookInto, "[\"a\",\"b\"]", "2 listed - 0"),
        (Call::LookInto, "[\"a\",1]", "2 - - 0"),
        (Call::LookInto, "[[\"a\"]]", "1 - - 0"),
        (Call::LookInto, "{}", "0 - - 0"),
        (Call::LookInto, "{\"N\":\"x\",\"n \":[1]}", "0 - - 0"),
        (Call::LookInto, "{\"m\":[1],\"n\":\"x\"}", "0 - x 0"),
        (Call::LookInto, "{\"m\":\"x\",\"n\":[\"y\",2]}", "0 - - 2"),
        (Call::LookInto, "{\"n\":{\"n\":\"x\"}}", "0 - - 0"),
        (Call::LookInto, "{\"n\":null}", "0 - - 0"),
        (Call::KindsOfElements, "[]", "texts objects lists"),
        (Call::KindsOfElements, "[\"a\",\"\"]", "texts - -"),
        (Call::KindsOfElements, "[{},{\"a\":1}]", "- objects -"),
        (
            Call::KindsOfElements,
            "[[\"a\"],[\"b\",\"c\"]]",
            "- - lists",
        ),
        (Call::KindsOfElements, "[\"a\",1]", "- - -"),
        (Call::KindsOfElements, "[{},[]]", "- - -"),
        (Call::KindsOfElements, "[[\"a\"],[]]", "- - -"),
        (Call::KindsOfElements, "[[\"a\"],[\"b\",null]]", "- - -"),
        (
            Call::HasFloat,
            "[0,-1,18446744073709551615,\"1.5\",null,true]",
            "no",
        ),
        (Call::HasFloat, "1.0", "yes"),
        (Call::HasFloat, "[1,[{\"a\":[]},{\"a\":1e0}]]", "yes"),
        (Call::HasFloat, "{\"a\":1,\"b\":{\"c\":-0}}", "yes"),
        (Call::HasFloat, "18446744073709551616", "yes"),
        (Call::HasFloat, "{\"1.5\":1}", "no"),
    ];
    assert!(rt; are_told(rt.alloc(), &rows)?);
    Ok(())
}

// Whether so many lists inside one another are a JSON text.
fn is_nested_json(alloc: Global, levels: usize) -> Result<bool, Fail> {
    let opened = "[".repeat(alloc, levels)?;
    let closed = "]".repeat(alloc, levels)?;
    let text = format!(in alloc; "{opened}{closed}")?;
    is_json(alloc, text.as_bytes())
}

// Of two members with one name the last one counts.
fn is_last_member(alloc: Global) -> Result<bool, Fail> {
    let value = read_json(alloc, b"{\"n\":\"first\",\"n\":\"last\"}")?.ok_or("no text")?;
    Ok(text_at(&value, "n") == Some("last"))
}

#[test]
fn reads_texts(rt: HostRuntime) -> Result<(), Fail> {
    let rows = [
        (Call::IsJson, " {\"a\":[1]}\n", "yes"),
        (Call::IsJson, "\"é\"", "yes"),
        (Call::IsJson, "", "no"),
        (Call::IsJson, "[1,]", "no"),
        (Call::IsJson, "[1]]", "no"),
        (Call::IsJson, "1 2", "no"),
        (Call::IsJson, "'a'", "no"),
        (Call::IsJson, "\u{feff}1", "no"),
        (Call::IsJson, "NaN", "no"),
    ];
    let alloc = rt.alloc();
    assert!(rt; are_told(alloc, &rows)?);
    assert!(rt; !is_json(alloc, b"\"\xc3\"")?);
    assert!(rt; is_nested_json(alloc, 127)?);
    assert!(rt; !is_nested_json(alloc, 128)?);
    assert!(rt; is_last_member(alloc)?);
    Ok(())
}
