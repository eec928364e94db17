// The reserved names `_sd` and `...`.
ghost use Rattle.std.specs.Prelude.{◌≡◌};
ghost use Rattle.serde_json.specs.View.{view, items_view, members_view};
ghost use Rattle.sdjwt_digests.specs.ReservedNames.{is_reserved_name};
ghost use Rattle.sdjwt_hiding.specs.Hiding.{is_free, are_free, has_free};

use serde_json::{Map, Value};

/// Whether no member at any depth of the value is named `_sd` or `...`.
#[cycle(free)]
pub fn is_free(value: &Value) -> bool
    ensures { result ≡ is_free (view value.now) }
{
    match value {
        Value::Array(list) => are_free(list),
        Value::Object(object) => has_free(object),
        _ => true,
    }
}

#[cycle(free)]
fn are_free(list: &Vec<Value>) -> bool
    ensures { result ≡ are_free (items_view list.now.items) }
{
    for item in list {
        if !is_free(item) {
            return false;
        }
    }
    true
}

/// Whether no member of the object, at any depth, is named `_sd` or `...`.
#[cycle(free)]
pub fn has_free(object: &Map<String, Value>) -> bool
    ensures { result ≡ has_free (members_view object.now.entries) }
{
    for (name, member) in object {
        if is_reserved_name(name.as_str()) || !is_free(member) {
            return false;
        }
    }
    true
}

fn is_reserved_name(name: &str) -> bool
    ensures { result ≡ is_reserved_name name.now }
{
    name == "_sd" || name == "..."
}
