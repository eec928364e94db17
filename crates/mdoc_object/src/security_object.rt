// The mobile security object, and `IssuerSigned`.
ghost use Rattle.std.specs.Prelude.{◌≡◌, IfOk};
ghost use Rattle.mdoc_object.specs.SecurityObject.{tdate_bytes, validity_bytes, device_key_entries};
ghost use Rattle.mdoc_object.specs.SecurityObject.{object_entries, payload_bytes, issuer_signed_bytes};
ghost use Rattle.mdoc_object.specs.code.Written.{said_parts, said_namespaces, AllDiffer};
ghost use Rattle.mdoc_written.specs.Containers.{map_bytes};

use crate::items::WrittenNamespace;
use crate::namespaces::value_digests;
use cbor_core::{NoMemory, Writer};
use mdoc_dates::tdate_text;
use mdoc_written::{embedded_bytes, named_map, text_bytes};
use std::alloc::Global;

/// The tag of a date with its time (RFC 8949, section 3.4.1).
const TDATE: u64 = 0;

/// The head of a text of twenty bytes (RFC 8949, section 3.1).
const TWENTY_BYTES: u8 = 116;

/// What a mobile security object says beside the digests.
#[derive(Clone, Copy)]
pub struct ObjectParts<'a> {
    /// The type of document.
    pub kind: &'a str,
    /// The first second, from 1970-01-01T00:00:00Z, at which it is valid.
    pub from: u64,
    /// The last second at which it is valid.
    pub until: u64,
    /// The encoding of the holder's key.
    pub key: &'a [u8],
}

/// What an issuer signs: the mobile security object of these parts and of the digests of these items,
/// embedded as a byte string.
pub fn payload(
    alloc: Global,
    parts: &ObjectParts<'_>,
    namespaces: &[WrittenNamespace<'_>],
) -> Result<Vec<u8>, NoMemory>
    requires { AllDiffer (said_namespaces namespaces.now) }
    ensures { IfOk result (λ v. v.items
        ≡ payload_bytes (said_parts parts.now) (said_namespaces namespaces.now)) }
{
    let object = object_bytes(alloc, parts, namespaces)?;
    embedded_bytes(alloc, &object)
}

fn object_bytes(
    alloc: Global,
    parts: &ObjectParts<'_>,
    namespaces: &[WrittenNamespace<'_>],
) -> Result<Vec<u8>, NoMemory>
    requires { AllDiffer (said_namespaces namespaces.now) }
    ensures { IfOk result (λ v. v.items
        ≡ map_bytes (object_entries (said_parts parts.now) (said_namespaces namespaces.now))) }
{
    let kind = text_bytes(alloc, parts.kind)?;
    let version = text_bytes(alloc, "1.0")?;
    let validity = validity_bytes(alloc, parts.from, parts.until)?;
    let digests = value_digests(alloc, namespaces)?;
    let key = device_key_bytes(alloc, parts.key)?;
    let hash = text_bytes(alloc, "SHA-256")?;
    named_map(
        alloc,
        &[
            ("docType", &kind),
            ("version", &version),
            ("validityInfo", &validity),
            ("valueDigests", &digests),
            ("deviceKeyInfo", &key),
            ("digestAlgorithm", &hash),
        ],
    )
}

fn device_key_bytes(alloc: Global, key: &[u8]) -> Result<Vec<u8>, NoMemory>
    ensures { IfOk result (λ v. v.items ≡ map_bytes (device_key_entries key.now)) }
{
    named_map(alloc, &[("deviceKey", key)])
}

fn validity_bytes(alloc: Global, from: u64, until: u64) -> Result<Vec<u8>, NoMemory>
    ensures { IfOk result (λ v. v.items ≡ validity_bytes from until) }
{
    let from = tdate_bytes(alloc, from)?;
    let until = tdate_bytes(alloc, until)?;
    named_map(
        alloc,
        &[
            ("signed", &from),
            ("validFrom", &from),
            ("validUntil", &until),
        ],
    )
}

// A date with its time, with its tag.
#[tactic(auto, unfolding(cbor_writer::specs::Writing::head_bytes))]
fn tdate_bytes(alloc: Global, seconds: u64) -> Result<Vec<u8>, NoMemory>
    ensures { IfOk result (λ v. v.items ≡ tdate_bytes seconds) }
{
    let mut writer = Writer::new(alloc);
    writer.tag(TDATE)?;
    writer.raw(&[TWENTY_BYTES])?;
    writer.raw(&tdate_text(seconds))?;
    Ok(writer.finish())
}

/// `IssuerSigned`: the issuer's signed message, and `nameSpaces`.
pub fn issuer_signed<'a>(
    alloc: Global,
    auth: &'a [u8],
    namespaces: &'a [u8],
) -> Result<Vec<u8>, NoMemory>
    ensures { IfOk result (λ v. v.items ≡ issuer_signed_bytes auth.now namespaces.now) }
{
    named_map(alloc, &[("issuerAuth", auth), ("nameSpaces", namespaces)])
}
