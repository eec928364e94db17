// The mobile security object, which the issuer signed.
ghost use Rattle.std.specs.Prelude.{◌≡◌, IfOk, option_map};
ghost use Rattle.cbor_core.specs.Seen.{span_of};
ghost use Rattle.cbor_core.specs.Views.{entries_of};
ghost use Rattle.base_forms.specs.Tdate.{tdate_of};
ghost use Rattle.mdoc_security.specs.MobileSecurityObject.{security_object_in, security_object_by};
ghost use Rattle.mdoc_security.specs.MobileSecurityObject.{security_object_rule, sole_embedded, first_in};
ghost use Rattle.mdoc_security.specs.MobileSecurityObject.{last_in, past_in, moment_of, moment_at};
ghost use Rattle.mdoc_security.specs.MobileSecurityObject.{has_version, hash_of};
ghost use Rattle.mdoc_security.specs.SecurityObject.{said_security_object};

use crate::device_key::has_wrong_key;
use crate::error::NoMemory;
use crate::value_digests::are_digests;
use base_forms::{HashName, read_tdate};
use cbor_core::{Item, read_one};
use mdoc_items::{LEVELS, embedded, map_at, read_map, text_at};
use std::alloc::Global;

/// The tag of a date with its time.
const DATE: u64 = 0;

/// A mobile security object. It borrows the bytes that it was read from.
#[derive(Clone, Copy)]
pub struct MobileSecurityObject<'t> {
    pub map: Item<'t>,
    pub algorithm: &'t str,
    pub kind: &'t str,
    pub digests: Item<'t>,
    pub validity: Item<'t>,
}

impl<'t> MobileSecurityObject<'t> {
    /// The object that a payload holds, or `None` where the payload is not of the form.
    pub fn read(
        alloc: Global,
        payload: Option<&'t [u8]>,
    ) -> Result<Option<MobileSecurityObject<'t>>, NoMemory>
        ensures { IfOk result
            (λ o. option_map said_security_object o ≡ security_object_in
            (option_map (λ b. b.now) payload.entry)) }
    {
        let Some(payload) = payload else {
            return Ok(None);
        };
        let Some(bytes) = sole_embedded(alloc, payload)? else {
            return Ok(None);
        };
        match read_map(alloc, bytes)? {
            Some(map) => Ok(MobileSecurityObject::of(map)),
            None => Ok(None),
        }
    }

    fn of(map: Item<'t>) -> Option<MobileSecurityObject<'t>>
        ensures { option_map said_security_object result ≡ security_object_by
            (entries_of (span_of map.entry)) }
    {
        let algorithm = text_at(map, "digestAlgorithm")?;
        let kind = text_at(map, "docType")?;
        let digests = map.find("valueDigests")?;
        if !are_digests(digests) {
            return None;
        }
        let validity = map_at(map, "validityInfo")?;
        Some(MobileSecurityObject {
            map,
            algorithm,
            kind,
            digests,
            validity,
        })
    }

    /// The hash that the digests are made by.
    pub fn hash(&self) -> HashName
        ensures { result ≡ hash_of (said_security_object self.now) }
    {
        HashName::from_mso(self.algorithm).unwrap_or(HashName::Sha256)
    }

    /// The first broken rule on version, hash, dates and device key.
    #[tactic(auto, unfolding(base_forms::specs::Rules::rule, crate::specs::MobileSecurityObject::security_object_rule))]
    pub fn rule(&self) -> Option<u8>
        ensures { result ≡ security_object_rule (said_security_object self.now) }
    {
        if !has_version(self.map) {
            Some(5)
        } else if HashName::from_mso(self.algorithm).is_none() {
            Some(6)
        } else if self.first().is_none() || self.last().is_none() {
            Some(7)
        } else if has_wrong_key(self.map) {
            Some(8)
        } else {
            None
        }
    }

    /// The first second at which it is valid.
    pub fn first(&self) -> Option<u64>
        ensures { result ≡ first_in (said_security_object self.now) }
    {
        moment_at(self.validity, "validFrom")
    }

    /// The first second after its validity.
    pub fn past(&self) -> Option<u64>
        ensures { result ≡ past_in (said_security_object self.now) }
    {
        let last = self.last()?;
        Some(last + 1)
    }

    // The last second at which it is valid.
    fn last(&self) -> Option<u64>
        ensures { result ≡ last_in (said_security_object self.now) }
    {
        moment_at(self.validity, "validUntil")
    }
}

// The bytes that an item of CBOR embeds under tag 24.
fn sole_embedded<'t>(alloc: Global, bytes: &'t [u8]) -> Result<Option<&'t [u8]>, NoMemory>
    ensures { IfOk result (λ o. option_map (λ b. b.now) o ≡ sole_embedded bytes.now) }
{
    match read_one(alloc, bytes, LEVELS) {
        Ok(item) => Ok(embedded(item)),
        Err(cbor_core::Error::Refused(_)) => Ok(None),
        Err(cbor_core::Error::NoMemory) => Err(NoMemory),
    }
}

fn moment_at(map: Item, name: &str) -> Option<u64>
    ensures { result ≡ moment_at name.now (entries_of (span_of map.entry)) }
{
    moment_of(map.find(name)?)
}

// The second of a date with its time, under its tag.
fn moment_of(item: Item) -> Option<u64>
    ensures { result ≡ moment_of (span_of item.entry) }
{
    match item.tag() {
        Some((DATE, inner)) => date_of(inner.text()?),
        _ => None,
    }
}

fn date_of(text: &str) -> Option<u64>
    ensures { result ≡ tdate_of text.now }
{
    match read_tdate(text) {
        Ok(moment) => Some(moment),
        Err(_) => None,
    }
}

fn has_version(map: Item) -> bool
    ensures { result ≡ has_version (entries_of (span_of map.entry)) }
{
    match text_at(map, "version") {
        Some(version) => version == "1.0",
        None => false,
    }
}
