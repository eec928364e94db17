// The elements of the namespaces.
ghost use Rattle.std.specs.Prelude.{◌≡◌, nat_lt};
ghost use Rattle.serde_json.specs.View.{view, members_view};
ghost use Rattle.mdoc_items.specs.IssuerSignedItems.{most_items};
ghost use Rattle.mdoc_object.specs.Namespaces.{elements_in, member_count, element_count};
ghost use Rattle.mdoc_spec.specs.Elements.{are_namespaces};

use serde_json::{Map, Value};

// The most elements of a document.
const MOST_ELEMENTS: usize = 1_024;

// Whether each member is an object.
pub(crate) fn are_namespaces(namespaces: &Map<String, Value>) -> bool
    ensures { result ≡ are_namespaces (members_view namespaces.now.entries) }
{
    for (_, namespace) in namespaces {
        if !namespace.is_object() {
            return false;
        }
    }
    true
}

// Whether there are more elements than a document may have.
pub(crate) fn are_too_many(namespaces: &Map<String, Value>) -> bool
    ensures { result ≡ nat_lt most_items (element_count (members_view namespaces.now.entries)) }
{
    let mut count = 0;
    for (_, namespace) in namespaces {
        let more = element_count(namespace);
        if more > MOST_ELEMENTS - count {
            return true;
        }
        count += more;
    }
    false
}

fn element_count(namespace: &Value) -> usize
    ensures { result ≡ member_count (elements_in (view namespace.now)) }
{
    match namespace {
        Value::Object(elements) => elements.len(),
        _ => 0,
    }
}
