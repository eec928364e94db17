// Objects that look like a byte string or a date, and stand for neither.
ghost use Rattle.std.specs.Prelude.{◌≡◌, ◌&&◌, IfOk};
ghost use Rattle.serde_json.specs.View.{view, items_view, members_view};
ghost use Rattle.mdoc_object.specs.Namespaces.{elements_in};
ghost use Rattle.mdoc_written.specs.Element.{stands_for};
ghost use Rattle.mdoc_spec.specs.Elements.{is_itself, has_mark, is_misspelled, has_misspelled_item};
ghost use Rattle.mdoc_spec.specs.Elements.{has_misspelled, has_misspelled_element};

use mdoc_written::{Standing, read_standing};
use serde_json::{Map, Value};
use spec_forms::{NoMemory, member_named};
use std::alloc::Global;

// Whether an object within an element's value has a member `$bytes` or `$date`, and stands for neither.
pub(crate) fn has_misspelled_element(
    alloc: Global,
    namespaces: &Map<String, Value>,
) -> Result<bool, NoMemory>
    ensures { IfOk result (λ b. b ≡ has_misspelled_element (members_view namespaces.now.entries)) }
{
    for (_, namespace) in namespaces {
        if is_misspelled_namespace(alloc, namespace)? {
            return Ok(true);
        }
    }
    Ok(false)
}

fn is_misspelled_namespace(alloc: Global, namespace: &Value) -> Result<bool, NoMemory>
    ensures { IfOk result (λ b. b ≡ has_misspelled (elements_in (view namespace.now))) }
{
    match namespace {
        Value::Object(elements) => has_misspelled(alloc, elements),
        _ => Ok(false),
    }
}

#[cycle(misspelled)]
fn is_misspelled(alloc: Global, value: &Value) -> Result<bool, NoMemory>
    ensures { IfOk result (λ b. b ≡ is_misspelled (view value.now)) }
{
    match value {
        Value::Array(list) => has_misspelled_item(alloc, list),
        Value::Object(object) => {
            if is_unknown_mark(alloc, object)? {
                Ok(true)
            } else {
                has_misspelled(alloc, object)
            }
        }
        _ => Ok(false),
    }
}

#[cycle(misspelled)]
fn has_misspelled_item(alloc: Global, list: &Vec<Value>) -> Result<bool, NoMemory>
    ensures { IfOk result (λ b. b ≡ has_misspelled_item (items_view list.now.items)) }
{
    for item in list {
        if is_misspelled(alloc, item)? {
            return Ok(true);
        }
    }
    Ok(false)
}

#[cycle(misspelled)]
fn has_misspelled(alloc: Global, object: &Map<String, Value>) -> Result<bool, NoMemory>
    ensures { IfOk result (λ b. b ≡ has_misspelled (members_view object.now.entries)) }
{
    for (_, member) in object {
        if is_misspelled(alloc, member)? {
            return Ok(true);
        }
    }
    Ok(false)
}

// Whether an object stands for itself, though it has a member `$bytes` or `$date`.
fn is_unknown_mark(alloc: Global, object: &Map<String, Value>) -> Result<bool, NoMemory>
    ensures { IfOk result (λ b. b ≡ (is_itself (stands_for (members_view object.now.entries))
        && has_mark (members_view object.now.entries))) }
{
    match read_standing(alloc, object)? {
        Standing::Itself => Ok(has_mark(object)),
        _ => Ok(false),
    }
}

fn has_mark(object: &Map<String, Value>) -> bool
    ensures { result ≡ has_mark (members_view object.now.entries) }
{
    member_named(object, "$bytes").is_some() || member_named(object, "$date").is_some()
}
