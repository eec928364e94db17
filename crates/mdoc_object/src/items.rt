// Issuer-signed items with their numbers.
ghost use Rattle.std.specs.Prelude.{◌≡◌, ◌+◌, ◌≤◌, IfOk, length};
ghost use Rattle.serde_json.specs.View.{view, members_view};
ghost use Rattle.mdoc_items.specs.IssuerSignedItems.{most_items};
ghost use Rattle.mdoc_object.specs.Namespaces.{elements_in, member_count, element_count, items_from};
ghost use Rattle.mdoc_object.specs.Namespaces.{written_namespaces};
ghost use Rattle.mdoc_object.specs.code.Written.{said_items, said_namespaces, AllDiffer};

use cbor_core::NoMemory;
use mdoc_written::item_bytes;
use serde_json::{Map, Value};
use std::alloc::Global;

/// An issuer-signed item with its number, which is its `digestID`.
#[derive(Drop)]
pub struct WrittenItem {
    pub number: u64,
    pub bytes: Vec<u8>,
}

/// A namespace and its items.
#[derive(Drop)]
pub struct WrittenNamespace<'a> {
    pub name: &'a str,
    pub items: Vec<WrittenItem>,
}

/// The items of all elements of these namespaces, numbered from 0 on in the order of the names. A namespace
/// that is no object has none.
pub fn write_namespaces(
    alloc: Global,
    namespaces: &Map<String, Value>,
) -> Result<Vec<WrittenNamespace<'_>>, NoMemory>
    requires { element_count (members_view namespaces.now.entries) ≤ most_items }
    ensures written { IfOk result (λ ns. said_namespaces ns.items
        ≡ written_namespaces (members_view namespaces.now.entries)) }
    ensures differ { IfOk result (λ ns. AllDiffer (said_namespaces ns.items)) }
{
    let mut written = Vec::with_capacity(alloc, namespaces.len())?;
    let mut number = 0;
    for (name, elements) in namespaces {
        let items = write_elements(alloc, number, elements)?;
        number += items.len() as u64;
        let name = name.as_str();
        written.push(WrittenNamespace { name, items })?;
    }
    Ok(written)
}

// The items of a namespace, numbered from this number on.
fn write_elements(
    alloc: Global,
    first: u64,
    namespace: &Value,
) -> Result<Vec<WrittenItem>, NoMemory>
    requires { first + member_count (elements_in (view namespace.now)) ≤ most_items }
    ensures items { IfOk result (λ items. said_items items.items
        ≡ items_from first (elements_in (view namespace.now))) }
    ensures count { IfOk result (λ items. length items.items
        ≡ member_count (elements_in (view namespace.now))) }
{
    match namespace {
        Value::Object(elements) => write_items(alloc, first, elements),
        _ => Ok(Vec::new(alloc)),
    }
}

fn write_items(
    alloc: Global,
    first: u64,
    elements: &Map<String, Value>,
) -> Result<Vec<WrittenItem>, NoMemory>
    requires { first + member_count (members_view elements.now.entries) ≤ most_items }
    ensures items { IfOk result (λ items. said_items items.items
        ≡ items_from first (members_view elements.now.entries)) }
    ensures count { IfOk result (λ items. length items.items
        ≡ member_count (members_view elements.now.entries)) }
{
    let mut items = Vec::with_capacity(alloc, elements.len())?;
    let mut number = first;
    for (name, value) in elements {
        let bytes = item_bytes(alloc, number, name, value)?;
        items.push(WrittenItem { number, bytes })?;
        number += 1;
    }
    Ok(items)
}
