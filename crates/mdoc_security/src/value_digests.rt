// The digests of a mobile security object, by namespace and `digestID`.
ghost use Rattle.std.specs.Prelude.{◌≡◌, ℕ, IfOk, OnOk, option_map, option_and_then, if◌then◌else◌, Some};
ghost use Rattle.std.specs.Prelude.{None};
ghost use Rattle.std.specs.Option.{option_or};
ghost use Rattle.cbor_core.specs.Seen.{span_of};
ghost use Rattle.cbor_core.specs.Views.{bytes_of, entries_of};
ghost use Rattle.mdoc_items.specs.MapFields.{Utf8, is_named};
ghost use Rattle.mdoc_security.specs.ValueDigests.{is_digest, is_digest_map, is_namespace_digests};
ghost use Rattle.mdoc_security.specs.ValueDigests.{are_digests, is_numbered, digest_in, digest_at};
ghost use Rattle.mdoc_security.specs.ValueDigests.{namespace_at};
ghost use Rattle.mdoc_security.specs.code.Indexes.{look, seek};

use cbor_core::Item;
use mdoc_items::{is_map, natural};
use std::alloc::{AllocError, Global};
use std::collections::BTreeMap;

/// The digests of all namespaces. A look-up by a name takes logarithmic time.
#[derive(Drop)]
pub struct ValueDigests<'t> {
    pub source: Item<'t>,
    namespaces: BTreeMap<&'t str, Item<'t>>,
    ghost indexed: { (name : Utf8) → seek name namespaces ≡ namespace_at name (entries_of (span_of source)) },
}

impl<'t> ValueDigests<'t> {
    /// The digests of a map of the form.
    pub fn new(alloc: Global, source: Item<'t>) -> Result<ValueDigests<'t>, AllocError>
        ensures { IfOk result (λ ds. span_of ds.source ≡ span_of source.entry) }
    {
        let namespaces = index_of_namespaces(alloc, source)?;
        Ok(ValueDigests { source, namespaces })
    }

    /// The digests of a namespace.
    pub fn under(&self, alloc: Global, name: &'t str) -> Result<NamespaceDigests<'t>, AllocError>
        ensures source { IfOk result (λ ns. span_of ns.source ≡ span_of self.now.source) }
        ensures name { IfOk result (λ ns. ns.name.now ≡ name.now) }
    {
        let index = index_of(alloc, self.namespace(name))?;
        Ok(NamespaceDigests {
            source: self.source,
            name,
            index,
        })
    }

    fn namespace(&self, name: &'t str) -> Option<Item<'t>>
        ensures { option_map (λ i. span_of i) result ≡ namespace_at name.now
            (entries_of (span_of self.now.source)) }
    {
        match self.namespaces.get(&name) {
            Some(namespace) => Some(*namespace),
            None => None,
        }
    }
}

/// The digests of one namespace. A look-up by a `digestID` takes logarithmic time.
#[derive(Drop)]
pub struct NamespaceDigests<'t> {
    pub source: Item<'t>,
    pub name: &'t str,
    index: BTreeMap<u64, &'t [u8]>,
    ghost indexed: { (number : ℕ)
        → look number index ≡ digest_at name.now number (entries_of (span_of source)) },
}

impl<'t> NamespaceDigests<'t> {
    pub fn find(&self, number: u64) -> Option<&'t [u8]>
        ensures { option_map (λ b. b.now) result ≡ digest_at self.now.name.now number
            (entries_of (span_of self.now.source)) }
    {
        match self.index.get(&number) {
            Some(digest) => Some(*digest),
            None => None,
        }
    }
}

fn index_of_namespaces<'t>(
    alloc: Global,
    source: Item<'t>,
) -> Result<BTreeMap<&'t str, Item<'t>>, AllocError>
    ensures { IfOk result
        (λ namespaces. (name : Utf8)
        → seek name namespaces ≡ namespace_at name (entries_of (span_of source.entry))) }
{
    let mut namespaces = BTreeMap::new(alloc);
    for (key, namespace) in source.entries() {
        put_namespace(&mut namespaces, key, namespace)?;
    }
    Ok(namespaces)
}

fn put_namespace<'t>(
    namespaces: &mut BTreeMap<&'t str, Item<'t>>,
    key: Item<'t>,
    namespace: Item<'t>,
) -> Result<(), AllocError>
    ensures { OnOk result
        ((x : Utf8) → seek x namespaces.new ≡ option_or
        (if is_named x (span_of key.entry) then Some (span_of namespace.entry) else None)
        (seek x namespaces.old)) }
{
    let Some(name) = key.text() else {
        return Ok(());
    };
    namespaces.insert(name, namespace)?;
    Ok(())
}

fn index_of<'t>(
    alloc: Global,
    namespace: Option<Item<'t>>,
) -> Result<BTreeMap<u64, &'t [u8]>, AllocError>
    ensures { IfOk result
        (λ numbers. (number : ℕ) → look number numbers ≡ option_and_then
        (λ s. digest_in number (entries_of s)) (option_map (λ i. span_of i) namespace.entry)) }
{
    match namespace {
        Some(namespace) => digests_in(alloc, namespace),
        None => Ok(BTreeMap::new(alloc)),
    }
}

fn digests_in<'t>(alloc: Global, namespace: Item<'t>) -> Result<BTreeMap<u64, &'t [u8]>, AllocError>
    ensures { IfOk result
        (λ numbers. (number : ℕ)
        → look number numbers ≡ digest_in number (entries_of (span_of namespace.entry))) }
{
    let mut numbers = BTreeMap::new(alloc);
    for (key, value) in namespace.entries() {
        put_digest(&mut numbers, key, value)?;
    }
    Ok(numbers)
}

fn put_digest<'t>(
    numbers: &mut BTreeMap<u64, &'t [u8]>,
    key: Item<'t>,
    value: Item<'t>,
) -> Result<(), AllocError>
    ensures { OnOk result
        ((x : ℕ) → look x numbers.new ≡ option_or
        (if is_numbered x (span_of key.entry) then bytes_of (span_of value.entry) else None)
        (look x numbers.old)) }
{
    let Some(number) = natural(key) else {
        return Ok(());
    };
    let Some(digest) = value.bytes() else {
        return Ok(());
    };
    numbers.insert(number, digest)?;
    Ok(())
}

/// Whether an item is a map from texts to maps from integers that are not negative to byte strings.
pub fn are_digests(item: Item) -> bool
    ensures { result ≡ are_digests (span_of item.entry) }
{
    is_map(item)
        && item
            .entries()
            .all(|(name, digests)| is_namespace_digests(name, digests))
}

fn is_namespace_digests(name: Item, digests: Item) -> bool
    ensures { result ≡ is_namespace_digests (span_of name.entry, span_of digests.entry) }
{
    name.text().is_some() && is_digest_map(digests)
}

fn is_digest_map(item: Item) -> bool
    ensures { result ≡ is_digest_map (span_of item.entry) }
{
    is_map(item)
        && item
            .entries()
            .all(|(number, digest)| is_digest(number, digest))
}

fn is_digest(number: Item, digest: Item) -> bool
    ensures { result ≡ is_digest (span_of number.entry, span_of digest.entry) }
{
    natural(number).is_some() && digest.bytes().is_some()
}
