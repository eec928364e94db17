// How many lists, maps and tags stand inside one another in the encodings of elements.
ghost use Rattle.std.specs.Prelude.{◌≡◌, nat_lt, IfOk};
ghost use Rattle.serde_json.specs.View.{view, items_view, members_view};
ghost use Rattle.mdoc_object.specs.Namespaces.{elements_in};
ghost use Rattle.mdoc_written.specs.Element.{stands_for};
ghost use Rattle.mdoc_spec.specs.Elements.{levels, items_levels, members_levels, standing_levels};
ghost use Rattle.mdoc_spec.specs.Elements.{has_deep_element};

use mdoc_written::{Standing, read_standing};
use serde_json::{Map, Value};
use spec_forms::NoMemory;
use std::alloc::Global;

// The most levels of an element's value.
const MOST_LEVELS: u64 = 31;

// Whether the value of an element has too many levels.
pub(crate) fn has_deep_element(
    alloc: Global,
    namespaces: &Map<String, Value>,
) -> Result<bool, NoMemory>
    ensures { IfOk result (λ b. b ≡ has_deep_element (members_view namespaces.now.entries)) }
{
    for (_, namespace) in namespaces {
        if is_deep_namespace(alloc, namespace)? {
            return Ok(true);
        }
    }
    Ok(false)
}

fn is_deep_namespace(alloc: Global, namespace: &Value) -> Result<bool, NoMemory>
    ensures { IfOk result (λ b. b ≡ nat_lt 31 (members_levels (elements_in (view namespace.now)))) }
{
    match namespace {
        Value::Object(elements) => members_are_deeper(alloc, elements, MOST_LEVELS),
        _ => Ok(false),
    }
}

// Whether more lists, maps and tags than this stand inside one another in the encoding of the value.
#[cycle(deeper)]
#[tactic(auto, using(spec_forms::proofs::Deeper::one_less, spec_forms::proofs::Deeper::deeper_first, spec_forms::proofs::Deeper::deeper_rest))]
fn is_deeper(alloc: Global, value: &Value, most: u64) -> Result<bool, NoMemory>
    ensures { IfOk result (λ b. b ≡ nat_lt most (levels (view value.now))) }
{
    match value {
        Value::Array(list) => {
            if most == 0 {
                Ok(true)
            } else {
                items_are_deeper(alloc, list, most - 1)
            }
        }
        Value::Object(object) => object_is_deeper(alloc, object, most),
        _ => Ok(false),
    }
}

#[cycle(deeper)]
#[tactic(auto, using(spec_forms::proofs::Deeper::one_less, spec_forms::proofs::Deeper::deeper_first, spec_forms::proofs::Deeper::deeper_rest))]
fn items_are_deeper(alloc: Global, list: &Vec<Value>, most: u64) -> Result<bool, NoMemory>
    ensures { IfOk result (λ b. b ≡ nat_lt most (items_levels (items_view list.now.items))) }
{
    for item in list {
        if is_deeper(alloc, item, most)? {
            return Ok(true);
        }
    }
    Ok(false)
}

#[cycle(deeper)]
#[tactic(auto, using(spec_forms::proofs::Deeper::one_less, spec_forms::proofs::Deeper::deeper_first, spec_forms::proofs::Deeper::deeper_rest))]
fn object_is_deeper(alloc: Global, object: &Map<String, Value>, most: u64) -> Result<bool, NoMemory>
    ensures { IfOk result (λ b. b ≡ nat_lt most
        (standing_levels (stands_for (members_view object.now.entries))
        (members_levels (members_view object.now.entries)))) }
{
    match read_standing(alloc, object)? {
        Standing::ByteString(_) => Ok(false),
        Standing::FullDate(_) => Ok(most == 0),
        Standing::Itself => {
            if most == 0 {
                Ok(true)
            } else {
                members_are_deeper(alloc, object, most - 1)
            }
        }
    }
}

#[cycle(deeper)]
#[tactic(auto, using(spec_forms::proofs::Deeper::one_less, spec_forms::proofs::Deeper::deeper_first, spec_forms::proofs::Deeper::deeper_rest))]
fn members_are_deeper(
    alloc: Global,
    object: &Map<String, Value>,
    most: u64,
) -> Result<bool, NoMemory>
    ensures { IfOk result (λ b. b ≡ nat_lt most (members_levels (members_view object.now.entries))) }
{
    for (_, member) in object {
        if is_deeper(alloc, member, most)? {
            return Ok(true);
        }
    }
    Ok(false)
}
