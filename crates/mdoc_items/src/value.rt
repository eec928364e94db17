// The claim tree of an element's value.
ghost use Rattle.std.specs.Prelude.{◌≡◌, IfOk, map};
ghost use Rattle.claim_tree.specs.Tree.{Text, Whole, Truth, Bytes, Other};
ghost use Rattle.std.specs.Option.{option_map_or};
ghost use Rattle.std.specs.Ordering.{nat_cmp, is_lt};
ghost use Rattle.std.specs.Cmp.Lexicographic.{slice_cmp};
ghost use Rattle.owned_tree.specs.Owned.{tree_of, named_of};
ghost use Rattle.cbor_core.specs.Seen.{span_of};
ghost use Rattle.cbor_core.specs.Views.{whole_of, bytes_of, utf8_text_of, truth_of};
ghost use Rattle.mdoc_items.specs.Value.{record_of, marked, rise, map_tree, list_tree, content_tree};
ghost use Rattle.mdoc_items.specs.Value.{value_at, value_of};
ghost use Rattle.mdoc_items.specs.code.Valued.{value_in, valued};
ghost use Rattle.mdoc_items.specs.code.Sorted.{AreSorted};

use cbor_core::{Item, Kind};
use owned_tree::{OwnedElement, OwnedMember, OwnedTree};
use std::alloc::{AllocError, Global};

/// How many items may lie inside one another in an element's value. The value lies in the map of its
/// issuer-signed item.
const LEVELS: usize = 32;

/// The tree of an element's value.
pub fn value_tree(alloc: Global, item: Item) -> Result<OwnedTree, AllocError>
    ensures { IfOk result (λ t. tree_of t ≡ value_of (span_of item.entry)) }
{
    tree_at(alloc, LEVELS, item)
}

/// A tree with its name.
#[derive(Drop)]
pub struct Named<'k> {
    pub name: &'k str,
    pub tree: OwnedTree,
}

/// The record of some named trees, all of them held or none. It is `Other` where two names are equal.
pub fn record(alloc: Global, held: bool, members: Vec<Named<'_>>) -> Result<OwnedTree, AllocError>
    ensures { IfOk result (λ t. tree_of t ≡ record_of held (valued members.entry.items)) }
{
    let members = sorted(members);
    if rise(&members) {
        Ok(OwnedTree::Record(owned(alloc, held, members)?))
    } else {
        Ok(OwnedTree::Other)
    }
}

// The members with owned names.
fn owned(alloc: Global, held: bool, members: Vec<Named<'_>>) -> Result<Vec<OwnedMember>, AllocError>
    ensures { IfOk result (λ list. map named_of list.items ≡ marked held (valued members.entry.items)) }
{
    let mut list = Vec::with_capacity(alloc, members.len())?;
    for Named { name, tree } in members {
        let name = String::from_str(alloc, name)?;
        list.push(OwnedMember { name, held, tree })?;
    }
    Ok(list)
}

// The members in the order of their names.
fn sorted(members: Vec<Named<'_>>) -> Vec<Named<'_>>
    ensures { AreSorted (valued members.entry.items) (valued result.items) }
{
    let mut members = members;
    members.sort_unstable_by_key(|member| member.name);
    members
}

// Whether the first name stands before the second.
fn is_before(a: &Named<'_>, b: &Named<'_>) -> bool
    ensures { result ≡ is_lt (slice_cmp nat_cmp (value_in a.now).0 (value_in b.now).0) }
{
    a.name < b.name
}

// Whether each name stands before the next.
fn rise(members: &[Named<'_>]) -> bool
    ensures { result ≡ rise (valued members.now) }
{
    let Some((first, rest)) = members.split_first() else {
        return true;
    };
    let mut before = first;
    for member in rest {
        if !is_before(before, member) {
            return false;
        }
        before = member;
    }
    true
}

#[cycle(tree)]
#[tactic(auto, unfolding(crate::specs::Value::value_at))]
fn tree_at(alloc: Global, levels: usize, item: Item) -> Result<OwnedTree, AllocError>
    ensures { IfOk result (λ t. tree_of t ≡ value_at levels (span_of item.entry)) }
{
    if levels == 0 {
        return Ok(OwnedTree::Other);
    }
    match item.kind() {
        Kind::Whole => Ok(integer_tree(item)),
        Kind::Bytes => bytes_tree(alloc, item),
        Kind::Text => string_tree(alloc, item),
        Kind::List => list_tree(alloc, levels - 1, item),
        Kind::Map => map_tree(alloc, levels - 1, item),
        Kind::Tag => content_tree(alloc, levels - 1, item),
        Kind::Truth => Ok(boolean_tree(item)),
        Kind::Null => Ok(OwnedTree::Null),
        Kind::Other => Ok(OwnedTree::Other),
    }
}

#[cycle(tree)]
fn list_tree(alloc: Global, levels: usize, item: Item) -> Result<OwnedTree, AllocError>
    ensures { IfOk result (λ t. tree_of t ≡ list_tree (value_at levels) (span_of item.entry)) }
{
    let mut elements = Vec::new(alloc);
    for element in item.items() {
        let tree = tree_at(alloc, levels, element)?;
        elements.push(OwnedElement { held: false, tree })?;
    }
    Ok(OwnedTree::List(false, elements))
}

#[cycle(tree)]
fn map_tree(alloc: Global, levels: usize, item: Item) -> Result<OwnedTree, AllocError>
    ensures { IfOk result (λ t. tree_of t ≡ map_tree (value_at levels) (span_of item.entry)) }
{
    let mut members = Vec::new(alloc);
    for (key, value) in item.entries() {
        let Some(name) = key.text() else {
            return Ok(OwnedTree::Other);
        };
        let tree = tree_at(alloc, levels, value)?;
        members.push(Named { name, tree })?;
    }
    record(alloc, false, members)
}

// The tree of the item that a tag is on.
#[cycle(tree)]
fn content_tree(alloc: Global, levels: usize, item: Item) -> Result<OwnedTree, AllocError>
    ensures { IfOk result (λ t. tree_of t ≡ content_tree (value_at levels) (span_of item.entry)) }
{
    match item.tag() {
        Some((_, content)) => tree_at(alloc, levels, content),
        None => Ok(OwnedTree::Other),
    }
}

fn integer_tree(item: Item) -> OwnedTree
    ensures { tree_of result ≡ option_map_or Whole (whole_of (span_of item.entry)) Other }
{
    match item.whole() {
        Some(number) => OwnedTree::Whole(number),
        None => OwnedTree::Other,
    }
}

fn boolean_tree(item: Item) -> OwnedTree
    ensures { tree_of result ≡ option_map_or Truth (truth_of (span_of item.entry)) Other }
{
    match item.truth() {
        Some(truth) => OwnedTree::Truth(truth),
        None => OwnedTree::Other,
    }
}

fn bytes_tree(alloc: Global, item: Item) -> Result<OwnedTree, AllocError>
    ensures { IfOk result (λ t. tree_of t ≡ option_map_or Bytes (bytes_of (span_of item.entry)) Other) }
{
    match item.bytes() {
        Some(bytes) => Ok(OwnedTree::Bytes(Vec::from_slice(alloc, bytes)?)),
        None => Ok(OwnedTree::Other),
    }
}

fn string_tree(alloc: Global, item: Item) -> Result<OwnedTree, AllocError>
    ensures { IfOk result (λ t. tree_of t ≡ option_map_or Text (utf8_text_of (span_of item.entry)) Other) }
{
    match item.text() {
        Some(text) => Ok(OwnedTree::Text(String::from_str(alloc, text)?)),
        None => Ok(OwnedTree::Other),
    }
}
