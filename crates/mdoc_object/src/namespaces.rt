// `nameSpaces` and `valueDigests`.
ghost use Rattle.std.specs.Prelude.{◌≡◌, IfOk, map};
ghost use Rattle.mdoc_object.specs.Namespaces.{namespaces_bytes};
ghost use Rattle.mdoc_object.specs.ValueDigests.{value_digests_bytes, digest_entry};
ghost use Rattle.mdoc_object.specs.code.Written.{said_items, said_namespaces, AllDiffer};
ghost use Rattle.mdoc_written.specs.Containers.{list_bytes, sorted_map_bytes, Differ, AllRelated};

use crate::items::{WrittenItem, WrittenNamespace};
use base_forms::HashName;
use cbor_core::{NoMemory, Writer};
use mdoc_written::{byte_string_bytes, number_bytes, sorted_map, text_bytes};
use std::alloc::Global;

/// `nameSpaces` of an `IssuerSigned`: the items of each namespace.
pub fn namespaces_bytes(
    alloc: Global,
    namespaces: &[WrittenNamespace<'_>],
) -> Result<Vec<u8>, NoMemory>
    requires { AllDiffer (said_namespaces namespaces.now) }
    ensures { IfOk result (λ v. v.items ≡ namespaces_bytes (said_namespaces namespaces.now)) }
{
    let mut pairs = Vec::with_capacity(alloc, namespaces.len())?;
    for namespace in namespaces {
        let name = text_bytes(alloc, namespace.name)?;
        let list = list_of_items(alloc, &namespace.items)?;
        pairs.push((name, list))?;
    }
    sorted_map(alloc, &pairs)
}

fn list_of_items(alloc: Global, items: &[WrittenItem]) -> Result<Vec<u8>, NoMemory>
    ensures { IfOk result (λ v. v.items ≡ list_bytes (map (λ i. i.bytes) (said_items items.now))) }
{
    let mut writer = Writer::new(alloc);
    writer.list(items.len() as u64)?;
    for item in items {
        writer.raw(&item.bytes)?;
    }
    Ok(writer.finish())
}

/// `valueDigests` of a mobile security object: the SHA-256 of each item, by namespaces and numbers.
pub fn value_digests(
    alloc: Global,
    namespaces: &[WrittenNamespace<'_>],
) -> Result<Vec<u8>, NoMemory>
    requires { AllDiffer (said_namespaces namespaces.now) }
    ensures { IfOk result (λ v. v.items ≡ value_digests_bytes (said_namespaces namespaces.now)) }
{
    let mut pairs = Vec::with_capacity(alloc, namespaces.len())?;
    for namespace in namespaces {
        let name = text_bytes(alloc, namespace.name)?;
        let digests = digests_of(alloc, &namespace.items)?;
        pairs.push((name, digests))?;
    }
    sorted_map(alloc, &pairs)
}

fn digests_of(alloc: Global, items: &[WrittenItem]) -> Result<Vec<u8>, NoMemory>
    requires { AllRelated Differ (map digest_entry (said_items items.now)) }
    ensures { IfOk result (λ v. v.items ≡ sorted_map_bytes (map digest_entry (said_items items.now))) }
{
    let mut pairs = Vec::with_capacity(alloc, items.len())?;
    for item in items {
        let number = number_bytes(alloc, item.number)?;
        let digest = HashName::Sha256.digest(&item.bytes);
        let digest = byte_string_bytes(alloc, digest.bytes())?;
        pairs.push((number, digest))?;
    }
    sorted_map(alloc, &pairs)
}
