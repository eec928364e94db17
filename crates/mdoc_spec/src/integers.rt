// Numbers that are no integers.
ghost use Rattle.std.specs.Prelude.{◌≡◌, false};
ghost use Rattle.serde_json.specs.View.{view, number_view, items_view, members_view};
ghost use Rattle.serde_json.specs.Find.{is_float};
ghost use Rattle.serde_json.specs.Written.{has_float, items_have_float, members_have_float};
ghost use Rattle.mdoc_spec.specs.code.Texts.{IsSized, IsStored, AreStored, HoldStored};

use serde_json::{Map, Number, Value};

// Whether a number that is no integer of 64 bits stands anywhere in the value. Else it can be written: its
// texts are UTF-8 and its numbers integers.
#[cycle(fraction)]
fn has_fraction(value: &Value) -> bool
    ensures fraction { result ≡ has_float (view value.now) }
    ensures stored { result ≡ false → IsStored (view value.now) }
{
    match value {
        Value::Number(number) => is_fraction(number),
        Value::Array(list) => items_have_fraction(list),
        Value::Object(object) => members_have_fraction(object),
        Value::Null | Value::Bool(_) => false,
        Value::String(_text) => false,
    }
}

fn is_fraction(number: &Number) -> bool
    ensures fraction { result ≡ is_float (number_view number.now) }
    ensures stored { result ≡ false → IsSized (number_view number.now) }
{
    match number.as_u64() {
        Some(_) => false,
        None => match number.as_i64() {
            Some(_) => false,
            None => true,
        },
    }
}

#[cycle(fraction)]
fn items_have_fraction(list: &Vec<Value>) -> bool
    ensures fraction { result ≡ items_have_float (items_view list.now.items) }
    ensures stored { result ≡ false → AreStored (items_view list.now.items) }
{
    for item in list {
        if has_fraction(item) {
            return true;
        }
    }
    false
}

#[cycle(fraction)]
pub(crate) fn members_have_fraction(object: &Map<String, Value>) -> bool
    ensures fraction { result ≡ members_have_float (members_view object.now.entries) }
    ensures stored { result ≡ false → HoldStored (members_view object.now.entries) }
{
    for (name, member) in object {
        if has_fraction(member) {
            return true;
        }
    }
    false
}
