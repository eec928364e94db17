// The claim tree of a JSON value in which each disclosure stands where its digest stood.
ghost use Rattle.std.specs.Prelude.{◌≡◌, ◌∷◌, [], IfOk, IfSome, Some, None, true, false, option_map, map};
ghost use Rattle.std.specs.Prelude.{if◌then◌else◌};
ghost use Rattle.claim_tree.specs.Tree.{ascend};
ghost use Rattle.serde_json.specs.View.{view, items_view, members_view, number_view};
ghost use Rattle.claim_tree.specs.Plain.{plain_number};
ghost use Rattle.base_forms.specs.Texts.{is_among};
ghost use Rattle.sdjwt_digests.specs.Disclosures.{found};
ghost use Rattle.sdjwt_digests.specs.code.Disclosures.{all_said};
ghost use Rattle.sdjwt_digests.specs.Disclosure.{said};
ghost use Rattle.owned_tree.specs.Owned.{tree_of, part_of, named_of};
ghost use Rattle.claim_tree.specs.Ascending.{names_of};
ghost use Rattle.sdjwt_disclosures.specs.code.SpelledItem.{parts_of};
ghost use Rattle.sdjwt_disclosures.specs.code.MemberMap.{members_in};
ghost use Rattle.sdjwt_digests.specs.DigestSites.{own_digests, texts_in};
ghost use Rattle.sdjwt_disclosures.specs.DisclosedTree.{left_out, spelled, spelled_list, spelled_record};
ghost use Rattle.sdjwt_disclosures.specs.DisclosedTree.{has_placeholder};
ghost use Rattle.sdjwt_disclosures.specs.DisclosedTree.{spelled_element, spelled_members, plain_members};
ghost use Rattle.sdjwt_disclosures.specs.DisclosedTree.{with_disclosure, with_disclosures};

use crate::member_map::{map_members, members_of, put};
use crate::spelled_item::SpelledItem;
use owned_tree::{OwnedElement, OwnedMember, OwnedTree};
use sdjwt_digests::Disclosures;
use sdjwt_digests::digest_sites::{own_digests, placeholder};
use serde_json::{Map, Number, Value};
use std::alloc::{AllocError, Global};
use std::collections::BTreeMap;

/// The tree, and none where it has more than `levels` lists and records inside one another.
#[cycle(spell)]
pub fn spell(
    alloc: Global,
    levels: usize,
    disclosures: &Disclosures<'_>,
    value: &Value,
) -> Result<Option<OwnedTree>, AllocError>
    ensures { IfOk result
        (λ o. option_map tree_of o ≡ spelled levels (all_said disclosures.now) (view value.now)) }
{
    match value {
        Value::Null => Ok(Some(OwnedTree::Null)),
        Value::Bool(truth) => Ok(Some(OwnedTree::Truth(*truth))),
        Value::Number(number) => Ok(Some(number_tree(number))),
        Value::String(text) => Ok(Some(OwnedTree::Text(text.clone()?))),
        Value::Array(list) => {
            if levels == 0 {
                return Ok(None);
            }
            spell_list(alloc, levels - 1, disclosures, list)
        }
        Value::Object(object) => {
            if levels == 0 {
                return Ok(None);
            }
            spell_record(alloc, levels - 1, disclosures, object)
        }
    }
}

#[cycle(spell)]
fn spell_list(
    alloc: Global,
    levels: usize,
    disclosures: &Disclosures<'_>,
    list: &Vec<Value>,
) -> Result<Option<OwnedTree>, AllocError>
    ensures { IfOk result
        (λ o. option_map tree_of o ≡ spelled_list (spelled levels (all_said disclosures.now))
        (all_said disclosures.now) (items_view list.now.items)) }
{
    let mut elements = Vec::new(alloc);
    for item in list {
        match spell_element(alloc, levels, disclosures, item)? {
            SpelledItem::Found(element) => elements.push(element)?,
            SpelledItem::Nothing => {}
            SpelledItem::TooDeep => return Ok(None),
        }
    }
    Ok(Some(OwnedTree::List(has_placeholder(list), elements)))
}

#[cycle(spell)]
fn spell_element(
    alloc: Global,
    levels: usize,
    disclosures: &Disclosures<'_>,
    item: &Value,
) -> Result<SpelledItem, AllocError>
    ensures { IfOk result
        (λ s. parts_of s ≡ spelled_element (spelled levels (all_said disclosures.now))
        (all_said disclosures.now) (view item.now)) }
{
    let Some(digest) = placeholder(item) else {
        let tree = spell(alloc, levels, disclosures, item)?;
        return Ok(part(false, tree));
    };
    let Some(disclosure) = disclosures.find(digest) else {
        return Ok(SpelledItem::Nothing);
    };
    if disclosure.name().is_some() {
        return Ok(SpelledItem::Nothing);
    }
    let tree = spell(alloc, levels, disclosures, disclosure.value())?;
    Ok(part(true, tree))
}

#[cycle(spell)]
fn spell_record(
    alloc: Global,
    levels: usize,
    disclosures: &Disclosures<'_>,
    object: &Map<String, Value>,
) -> Result<Option<OwnedTree>, AllocError>
    ensures { IfOk result
        (λ o. option_map tree_of o ≡ spelled_record false (spelled levels (all_said disclosures.now))
        (all_said disclosures.now) (members_view object.now.entries)) }
{
    match spell_members(alloc, levels, disclosures, false, object)? {
        Some(members) => Ok(Some(OwnedTree::Record(members))),
        None => Ok(None),
    }
}

#[cycle(spell)]
pub fn spell_members(
    alloc: Global,
    levels: usize,
    disclosures: &Disclosures<'_>,
    is_payload: bool,
    object: &Map<String, Value>,
) -> Result<Option<Vec<OwnedMember>>, AllocError>
    ensures { IfOk result
        (λ o. option_map (λ v. map named_of v.items) o ≡ spelled_members is_payload
        (spelled levels (all_said disclosures.now)) (all_said disclosures.now)
        (members_view object.now.entries)) }
{
    let Some(members) = spell_plain(alloc, levels, disclosures, is_payload, object)? else {
        return Ok(None);
    };
    let Some(digests) = own_digests(object) else {
        return Ok(Some(members));
    };
    spell_disclosed(alloc, levels, disclosures, digests, members)
}

#[cycle(spell)]
fn spell_plain(
    alloc: Global,
    levels: usize,
    disclosures: &Disclosures<'_>,
    is_payload: bool,
    object: &Map<String, Value>,
) -> Result<Option<Vec<OwnedMember>>, AllocError>
    ensures order { IfOk result (λ o. IfSome o (λ v. ascend (names_of (map named_of v.items)) ≡ true)) }
    ensures members { IfOk result
        (λ o. option_map (λ v. map named_of v.items) o ≡ plain_members is_payload
        (spelled levels (all_said disclosures.now)) (members_view object.now.entries)) }
{
    let mut members = Vec::new(alloc);
    for (name, value) in object {
        if !is_left_out(is_payload, name.as_str()) {
            let Some(tree) = spell(alloc, levels, disclosures, value)? else {
                return Ok(None);
            };
            members.push(OwnedMember {
                name: name.clone()?,
                held: false,
                tree,
            })?;
        }
    }
    Ok(Some(members))
}

#[cycle(spell)]
fn spell_disclosed(
    alloc: Global,
    levels: usize,
    disclosures: &Disclosures<'_>,
    digests: &Vec<Value>,
    plain: Vec<OwnedMember>,
) -> Result<Option<Vec<OwnedMember>>, AllocError>
    requires { ascend (names_of (map named_of plain.items)) ≡ true }
    ensures { IfOk result
        (λ o. option_map (λ v. map named_of v.items) o ≡ with_disclosures
        (spelled levels (all_said disclosures.now)) (all_said disclosures.now)
        (texts_in (items_view digests.now.items)) (map named_of plain.items)) }
{
    let mut by_name = map_members(alloc, plain)?;
    for item in digests {
        if let Some(digest) = item.as_str() {
            if !put_disclosed(alloc, levels, disclosures, digest, &mut by_name)? {
                return Ok(None);
            }
        }
    }
    Ok(Some(members_of(alloc, by_name)?))
}

#[cycle(spell)]
fn put_disclosed(
    alloc: Global,
    levels: usize,
    disclosures: &Disclosures<'_>,
    digest: &str,
    by_name: &mut BTreeMap<String, OwnedElement>,
) -> Result<bool, AllocError>
    requires { ascend (names_of (members_in by_name.old.entries)) ≡ true }
    ensures order { ascend (names_of (members_in by_name.new.entries)) ≡ true }
    ensures put { IfOk result
        (λ done. with_disclosure (spelled levels (all_said disclosures.now))
        (found digest.now (all_said disclosures.now)) (members_in by_name.old.entries) ≡
        (if done then Some (members_in by_name.new.entries) else None)) }
{
    let Some(disclosure) = disclosures.find(digest) else {
        return Ok(true);
    };
    let Some(name) = disclosure.name() else {
        return Ok(true);
    };
    let Some(tree) = spell(alloc, levels, disclosures, disclosure.value())? else {
        return Ok(false);
    };
    let name = String::from_str(alloc, name)?;
    put(
        by_name,
        OwnedMember {
            name,
            held: true,
            tree,
        },
    )?;
    Ok(true)
}

fn has_placeholder(list: &Vec<Value>) -> bool
    ensures { result ≡ has_placeholder (items_view list.now.items) }
{
    list.iter().any(|item| placeholder(item).is_some())
}

fn part(held: bool, tree: Option<OwnedTree>) -> SpelledItem
    ensures { parts_of result ≡ option_map (λ t. (held, t) ∷ []) (option_map tree_of tree) }
{
    match tree {
        Some(tree) => SpelledItem::Found(OwnedElement { held, tree }),
        None => SpelledItem::TooDeep,
    }
}

fn number_tree(number: &Number) -> OwnedTree
    ensures { tree_of result ≡ plain_number (number_view number.now) }
{
    match number.as_i128() {
        Some(whole) => OwnedTree::Whole(whole),
        None => OwnedTree::Other,
    }
}

fn is_left_out(is_payload: bool, name: &str) -> bool
    ensures { result ≡ is_among name.now (left_out is_payload) }
{
    "_sd" == name || (is_payload && "_sd_alg" == name)
}
