// Numbers that are no integers.
ghost use Rattle.std.specs.Prelude.{◌≡◌};
ghost use Rattle.serde_json.specs.View.{view, items_view, members_view};
ghost use Rattle.serde_json.specs.Written.{has_float, items_have_float, members_have_float};

use serde_json::{Map, Value};

/// Whether a number that is no integer stands anywhere in the value: one written with a fraction or an
/// exponent, `-0`, or an integer below -2^63 or above 2^64 - 1.
#[cycle(has_float)]
pub fn has_float(value: &Value) -> bool
    ensures { result ≡ has_float (view value.now) }
{
    match value {
        Value::Number(number) => number.is_f64(),
        Value::Array(list) => items_have_float(list),
        Value::Object(object) => members_have_float(object),
        Value::Null | Value::Bool(_) | Value::String(_) => false,
    }
}

#[cycle(has_float)]
fn items_have_float(list: &Vec<Value>) -> bool
    ensures { result ≡ items_have_float (items_view list.now.items) }
{
    for item in list {
        if has_float(item) {
            return true;
        }
    }
    false
}

#[cycle(has_float)]
fn members_have_float(object: &Map<String, Value>) -> bool
    ensures { result ≡ members_have_float (members_view object.now.entries) }
{
    for (_, member) in object {
        if has_float(member) {
            return true;
        }
    }
    false
}
