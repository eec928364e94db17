// Ids, and the lists that name them.
ghost use Rattle.std.specs.Prelude.{◌≡◌, map, codes, false};
ghost use Rattle.std.specs.List.{list_all};
ghost use Rattle.std.specs.Option.{option_map_or};
ghost use Rattle.serde_json.specs.View.{view};
ghost use Rattle.serde_json.specs.Find.{get, as_str};
ghost use Rattle.json_forms.specs.Look.{is_wrong};
ghost use Rattle.dcql_rules.specs.Ids.{is_id_byte, is_id, is_id_text, has_id, all_have_right_ids};
ghost use Rattle.dcql_rules.specs.Ids.{are_right_ids, all_have_ids, is_named, is_known, has_equal_ids};
ghost use Rattle.dcql_rules.specs.Ids.{knows_all, knows_all_lists};

use json_forms::{elements, text_at};
use serde_json::Value;

// Whether each value has an id of the right form.
pub(crate) fn all_have_right_ids(values: &[Value]) -> bool
    ensures { result ≡ all_have_right_ids (map view values.now) }
{
    values.iter().all(|value| has_id(value))
}

fn has_id(value: &Value) -> bool
    ensures { result ≡ has_id (view value.now) }
{
    match value.get("id") {
        Some(id) => is_id_text(id),
        None => false,
    }
}

// Whether the ids that are there are of the right form.
pub(crate) fn are_right_ids(values: &[Value]) -> bool
    ensures { result ≡ are_right_ids (map view values.now) }
{
    values.iter().all(|value| !has_wrong_id(value))
}

fn has_wrong_id(value: &Value) -> bool
    ensures { result ≡ is_wrong is_id_text (get (codes "id") (view value.now)) }
{
    match value.get("id") {
        Some(id) => !is_id_text(id),
        None => false,
    }
}

// Whether each value has an `id`, whatever it is.
pub(crate) fn all_have_ids(values: &[Value]) -> bool
    ensures { result ≡ all_have_ids (map view values.now) }
{
    values.iter().all(|value| value.get("id").is_some())
}

fn is_id_text(value: &Value) -> bool
    ensures { result ≡ is_id_text (view value.now) }
{
    match value.as_str() {
        Some(string) => is_id(string),
        None => false,
    }
}

/// Whether a string has the form of an id: one or more ASCII letters, ASCII digits, `_` and `-`.
pub fn is_id(string: &str) -> bool
    ensures { result ≡ is_id string.now }
{
    let bytes = string.as_bytes();
    !bytes.is_empty() && are_id_bytes(bytes)
}

fn are_id_bytes(bytes: &[u8]) -> bool
    ensures { result ≡ list_all is_id_byte bytes.now }
{
    bytes.iter().all(|byte| is_id_byte(*byte))
}

fn is_id_byte(byte: u8) -> bool
    ensures { result ≡ is_id_byte byte }
{
    matches!(byte, b'A'..=b'Z' | b'a'..=b'z' | b'0'..=b'9' | b'_' | b'-')
}

// Whether two values have the same id.
pub(crate) fn has_equal_ids(values: &[Value]) -> bool
    ensures { result ≡ has_equal_ids (map view values.now) }
{
    let Some((first, rest)) = values.split_first() else {
        return false;
    };
    if let Some(id) = text_at(first, "id") {
        if is_known(rest, id) {
            return true;
        }
    }
    has_equal_ids(rest)
}

// Whether one of the values has this id.
fn is_known(values: &[Value], id: &str) -> bool
    ensures { result ≡ is_known (map view values.now) id.now }
{
    values.iter().any(|value| is_named(value, id))
}

/// Whether the `id` of a value is this text.
pub fn is_named(value: &Value, id: &str) -> bool
    ensures { result ≡ is_named id.now (view value.now) }
{
    match text_at(value, "id") {
        Some(other) => id == other,
        None => false,
    }
}

// Whether each name in each list is the id of one of the values.
pub(crate) fn knows_all_lists(values: &[Value], lists: &[Value]) -> bool
    ensures { result ≡ knows_all_lists (map view values.now) (map view lists.now) }
{
    lists.iter().all(|list| knows_all(values, elements(list)))
}

fn knows_all(values: &[Value], names: &[Value]) -> bool
    ensures { result ≡ knows_all (map view values.now) (map view names.now) }
{
    names.iter().all(|name| knows(values, name))
}

fn knows(values: &[Value], name: &Value) -> bool
    ensures { result ≡ option_map_or (is_known (map view values.now)) (as_str (view name.now)) false }
{
    match name.as_str() {
        Some(name) => is_known(values, name),
        None => false,
    }
}
