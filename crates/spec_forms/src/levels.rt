// How many lists and objects stand inside one another.
ghost use Rattle.std.specs.Prelude.{◌≡◌, nat_lt};
ghost use Rattle.serde_json.specs.View.{view, items_view, members_view};
ghost use Rattle.serde_json.specs.Data.{depth, items_depth, members_depth};

use serde_json::{Map, Value};

/// Whether more than so many lists and objects stand inside one another in the value, itself among them.
#[cycle(deeper)]
#[tactic(auto, using(crate::proofs::Deeper::one_less))]
pub fn is_deeper(value: &Value, levels: u64) -> bool
    ensures { result ≡ nat_lt levels (depth (view value.now)) }
{
    match value {
        Value::Array(list) => levels == 0 || items_are_deeper(list, levels - 1),
        Value::Object(object) => levels == 0 || members_are_deeper(object, levels - 1),
        _ => false,
    }
}

#[cycle(deeper)]
#[tactic(auto, using(crate::proofs::Deeper::deeper_first, crate::proofs::Deeper::deeper_rest))]
fn items_are_deeper(list: &Vec<Value>, levels: u64) -> bool
    ensures { result ≡ nat_lt levels (items_depth (items_view list.now.items)) }
{
    for item in list {
        if is_deeper(item, levels) {
            return true;
        }
    }
    false
}

#[cycle(deeper)]
#[tactic(auto, using(crate::proofs::Deeper::deeper_first, crate::proofs::Deeper::deeper_rest))]
/// The same of an object, whose own level does not count.
pub fn members_are_deeper(object: &Map<String, Value>, levels: u64) -> bool
    ensures { result ≡ nat_lt levels (members_depth (members_view object.now.entries)) }
{
    for (_, member) in object {
        if is_deeper(member, levels) {
            return true;
        }
    }
    false
}
