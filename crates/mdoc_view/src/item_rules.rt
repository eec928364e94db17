// The rules on elements and digests.
ghost use Rattle.std.specs.Prelude.{◌≡◌, not, IfOk, map, [], ◌∷◌};
ghost use Rattle.base_forms.specs.Rules.{rule, first};
ghost use Rattle.std.specs.List.{list_any, list_all};
ghost use Rattle.cbor_core.specs.Seen.{span_of};
ghost use Rattle.cbor_core.specs.Views.{entries_of};
ghost use Rattle.mdoc_items.specs.Parts.{said_item, said_namespace, entries_in};
ghost use Rattle.mdoc_security.specs.SecurityObject.{said_security_object};
ghost use Rattle.mdoc_view.specs.ItemRules.{digests_rule, elements_differ, lacks, deviates, any_item};
ghost use Rattle.mdoc_view.specs.code.Checked.{IsChecked};

use base_forms::{HashName, are_distinct};
use cbor_core::Item;
use mdoc_items::{IssuerSignedItem, Namespace, are_too_many, read_namespaces};
use mdoc_security::{MobileSecurityObject, NamespaceDigests, NoMemory, ValueDigests};
use std::alloc::{AllocError, Global};

/// The namespaces with their items, or the first broken rule on issuer-signed items.
#[derive(Drop)]
pub enum CheckedItems<'t> {
    Read(Vec<Namespace<'t>>),
    Broken(u8),
}

/// Reads the issuer-signed items of a document and checks them against the mobile security object.
#[tactic(auto, unfolding(base_forms::specs::Rules::rule, crate::specs::Refusal::items_rule))]
pub fn check_items<'t>(
    alloc: Global,
    object: &MobileSecurityObject<'t>,
    namespaces: Option<Item<'t>>,
) -> Result<CheckedItems<'t>, NoMemory>
    ensures { IfOk result
        (λ checked. IsChecked (said_security_object object.now) (entries_in namespaces.entry) checked) }
{
    if are_too_many(namespaces) {
        return Ok(CheckedItems::Broken(9));
    }
    let Some(list) = read_namespaces(alloc, namespaces)? else {
        return Ok(CheckedItems::Broken(10));
    };
    match digests_rule(alloc, object.hash(), object.digests, &list)? {
        Some(rule) => Ok(CheckedItems::Broken(rule)),
        None => Ok(CheckedItems::Read(list)),
    }
}

// The first broken rule of these: no element stands twice in its namespace; each item has a digest; the
// digest is that of the item.
#[tactic(auto, unfolding(base_forms::specs::Rules::rule, crate::specs::ItemRules::digests_rule))]
fn digests_rule<'t>(
    alloc: Global,
    hash: HashName,
    digests: Item<'t>,
    namespaces: &[Namespace<'t>],
) -> Result<Option<u8>, AllocError>
    ensures { IfOk result
        (λ o. o ≡ digests_rule hash (entries_of (span_of digests.entry))
        (map said_namespace namespaces.now)) }
{
    if !all_differ(alloc, namespaces)? {
        return Ok(Some(11));
    }
    let digests = ValueDigests::new(alloc, digests)?;
    digest_rule(alloc, hash, &digests, namespaces)
}

fn all_differ(alloc: Global, namespaces: &[Namespace]) -> Result<bool, AllocError>
    ensures { IfOk result (λ b. b ≡ list_all elements_differ (map said_namespace namespaces.now)) }
{
    for namespace in namespaces {
        if !elements_differ(alloc, namespace)? {
            return Ok(false);
        }
    }
    Ok(true)
}

fn elements_differ(alloc: Global, namespace: &Namespace) -> Result<bool, AllocError>
    ensures { IfOk result (λ b. b ≡ elements_differ (said_namespace namespace.now)) }
{
    let elements = elements(alloc, &namespace.items)?;
    are_distinct(alloc, &elements)
}

fn elements<'t>(alloc: Global, items: &[IssuerSignedItem<'t>]) -> Result<Vec<&'t str>, AllocError>
    ensures { IfOk result
        (λ v. map (λ s. s.now) v.items ≡ map (λ i. i.element_identifier) (map said_item items.now)) }
{
    let mut elements = Vec::new(alloc);
    for item in items {
        elements.push(item.element_identifier)?;
    }
    Ok(elements)
}

// The first broken rule of these: each item has a digest; the digest is that of the item. The digests of a
// namespace are put into an index once for both rules.
#[tactic(auto, unfolding(base_forms::specs::Rules::rule))]
fn digest_rule<'t>(
    alloc: Global,
    hash: HashName,
    digests: &ValueDigests<'t>,
    namespaces: &[Namespace<'t>],
) -> Result<Option<u8>, AllocError>
    ensures { IfOk result (λ o. o ≡ first
        (rule 12 (list_any (any_item (lacks (entries_of (span_of digests.now.source))))
        (map said_namespace namespaces.now))
        ∷ rule 13 (list_any (any_item (deviates hash (entries_of (span_of digests.now.source))))
        (map said_namespace namespaces.now))
        ∷ [])) }
{
    let mut deviate = false;
    for namespace in namespaces {
        let own = digests.under(alloc, namespace.name)?;
        if any_item_lacks(&own, &namespace.items) {
            return Ok(Some(12));
        }
        deviate = deviate || any_item_deviates(hash, &own, &namespace.items);
    }
    if deviate { Ok(Some(13)) } else { Ok(None) }
}

fn any_item_lacks<'t>(digests: &NamespaceDigests<'t>, items: &[IssuerSignedItem<'t>]) -> bool
    ensures { result ≡ list_any (lacks (entries_of (span_of digests.now.source)) digests.now.name.now)
        (map said_item items.now) }
{
    items
        .iter()
        .any(|item| digests.find(item.digest_id).is_none())
}

fn any_item_deviates<'t>(
    hash: HashName,
    digests: &NamespaceDigests<'t>,
    items: &[IssuerSignedItem<'t>],
) -> bool
    ensures { result ≡ list_any (deviates hash (entries_of (span_of digests.now.source)) digests.now.name.now)
        (map said_item items.now) }
{
    for item in items {
        if deviates(hash, digests, item) {
            return true;
        }
    }
    false
}

// Whether an item has another digest than its own. Its own is over its whole encoding, with its tag.
fn deviates<'t>(hash: HashName, digests: &NamespaceDigests<'t>, item: &IssuerSignedItem<'t>) -> bool
    ensures { result ≡ deviates hash (entries_of (span_of digests.now.source)) digests.now.name.now
        (said_item item.now) }
{
    match digests.find(item.digest_id) {
        Some(digest) => digest != hash.digest(item.span).bytes(),
        None => false,
    }
}
