// The issuer-signed items of a document.
ghost use Rattle.std.specs.Prelude.{◌≡◌, ◌+◌, true, IfOk, MatchOption, nat_lt, length, map, option_map};
ghost use Rattle.cbor_core.specs.Seen.{span_of};
ghost use Rattle.cbor_core.specs.Views.{entries_of, items_of};
ghost use Rattle.mdoc_items.specs.IssuerSignedItems.{item_in, item_by, all_items, namespace_in};
ghost use Rattle.mdoc_items.specs.IssuerSignedItems.{all_namespaces, item_count, most_items};
ghost use Rattle.mdoc_items.specs.Parts.{said_item, said_namespace, entries_in};

use crate::item_fields::ItemFields;
use crate::map_fields::{embedded, natural, read_map};
use cbor_core::Item;
use std::alloc::{AllocError, Global};

/// How many items a document may have.
const MOST_ITEMS: usize = 1_024;

/// An issuer-signed item. It borrows the document's bytes.
#[derive(Clone, Copy)]
pub struct IssuerSignedItem<'t> {
    /// Its whole encoding, with its tag.
    pub span: &'t [u8],
    pub digest_id: u64,
    pub element_identifier: &'t str,
    pub element_value: Item<'t>,
}

/// The issuer-signed items of a namespace, in the order of the document.
#[derive(Drop)]
pub struct Namespace<'t> {
    pub name: &'t str,
    pub items: Vec<IssuerSignedItem<'t>>,
}

/// Whether the namespaces have more items than a document may have.
pub fn are_too_many(namespaces: Option<Item>) -> bool
    ensures { result ≡ nat_lt most_items (item_count (entries_in namespaces.entry)) }
{
    match namespaces {
        Some(namespaces) => do_exceed(namespaces),
        None => false,
    }
}

fn do_exceed(namespaces: Item) -> bool
    ensures { result ≡ nat_lt most_items (item_count (entries_of (span_of namespaces.entry))) }
{
    let mut room = MOST_ITEMS;
    for (_, list) in namespaces.entries() {
        match room_after(room, list) {
            Some(left) => room = left,
            None => return true,
        }
    }
    false
}

// The room that is left after the elements of a list, or `None` where they do not fit.
fn room_after(room: usize, list: Item) -> Option<usize>
    ensures { MatchOption result (nat_lt room (length (items_of (span_of list.entry))) ≡ true)
        (λ left. room ≡ left + length (items_of (span_of list.entry))) }
{
    let mut left = room;
    for _ in list.items() {
        if left == 0 {
            return None;
        }
        left -= 1;
    }
    Some(left)
}

/// The namespaces with their items, or `None` where an item is not of the form.
pub fn read_namespaces<'t>(
    alloc: Global,
    namespaces: Option<Item<'t>>,
) -> Result<Option<Vec<Namespace<'t>>>, AllocError>
    ensures { IfOk result
        (λ o. option_map (λ v. map said_namespace v.items) o ≡ all_namespaces (entries_in namespaces.entry)) }
{
    match namespaces {
        Some(namespaces) => read_all(alloc, namespaces),
        None => Ok(Some(Vec::new(alloc))),
    }
}

fn read_all<'t>(
    alloc: Global,
    namespaces: Item<'t>,
) -> Result<Option<Vec<Namespace<'t>>>, AllocError>
    ensures { IfOk result
        (λ o. option_map (λ v. map said_namespace v.items) o ≡ all_namespaces
        (entries_of (span_of namespaces.entry))) }
{
    let mut list = Vec::new(alloc);
    for (name, items) in namespaces.entries() {
        match read_namespace(alloc, name, items)? {
            Some(namespace) => list.push(namespace)?,
            None => return Ok(None),
        }
    }
    Ok(Some(list))
}

fn read_namespace<'t>(
    alloc: Global,
    name: Item<'t>,
    items: Item<'t>,
) -> Result<Option<Namespace<'t>>, AllocError>
    ensures { IfOk result
        (λ o. option_map said_namespace o ≡ namespace_in (span_of name.entry, span_of items.entry)) }
{
    let Some(name) = name.text() else {
        return Ok(None);
    };
    match read_items(alloc, items)? {
        Some(items) => Ok(Some(Namespace { name, items })),
        None => Ok(None),
    }
}

fn read_items<'t>(
    alloc: Global,
    items: Item<'t>,
) -> Result<Option<Vec<IssuerSignedItem<'t>>>, AllocError>
    ensures { IfOk result
        (λ o. option_map (λ v. map said_item v.items) o ≡ all_items (items_of (span_of items.entry))) }
{
    let mut list = Vec::new(alloc);
    for item in items.items() {
        match read_item(alloc, item)? {
            Some(signed) => list.push(signed)?,
            None => return Ok(None),
        }
    }
    Ok(Some(list))
}

fn read_item<'t>(alloc: Global, item: Item<'t>) -> Result<Option<IssuerSignedItem<'t>>, AllocError>
    ensures { IfOk result (λ o. option_map said_item o ≡ item_in (span_of item.entry)) }
{
    let Some(bytes) = embedded(item) else {
        return Ok(None);
    };
    match read_map(alloc, bytes)? {
        Some(map) => Ok(item_by(item.span(), map)),
        None => Ok(None),
    }
}

fn item_by<'t>(span: &'t [u8], map: Item<'t>) -> Option<IssuerSignedItem<'t>>
    ensures { option_map said_item result ≡ item_by span.now (entries_of (span_of map.entry)) }
{
    let fields = ItemFields::of(map);
    let digest_id = natural(fields.digest_id?)?;
    let _random = fields.random?.bytes()?;
    let element_identifier = fields.element_identifier?.text()?;
    let element_value = fields.element_value?;
    Some(IssuerSignedItem {
        span,
        digest_id,
        element_identifier,
        element_value,
    })
}
