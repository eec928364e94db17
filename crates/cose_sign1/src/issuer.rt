// The name of the key that signed a message.
ghost use Rattle.std.specs.Prelude.{◌≡◌, IfOk, option_map, string_bytes};
ghost use Rattle.cbor_core.specs.Seen.{span_of};
ghost use Rattle.cose_sign1.specs.code.Parts.{headers_of};
ghost use Rattle.cose_sign1.specs.Sign1.{certificate_in, leaf_in, key_in, in_either, issuer_of, named_key};

use crate::error::NoMemory;
use crate::headers::find_label;
use crate::sign1::Sign1;
use base_forms::{leaf_name, to_hex};
use cbor_core::Item;
use claim_tree::KeyName;
use std::alloc::Global;

const KEY_IDENTIFIER: i128 = 4;

const CERTIFICATES: i128 = 33;

impl<'a> Sign1<'a> {
    ghost use Rattle.cose_sign1.specs.code.Message.{message};

    /// The name of the key that signed it: `x5:` and the lower-case hexadecimal SHA-256 of the leaf
    /// certificate where a header (label 33) has one; else `mkid:` and the hexadecimal of the key's
    /// identifier (label 4), which may be empty. A label that stands in both maps is taken from the
    /// unprotected one, unless its value is of another form there.
    pub fn issuer_name(&self, alloc: Global) -> Result<KeyName, NoMemory>
        ensures { IfOk result (λ name. name ≡ issuer_of (message self.now)) }
    {
        let text = match self.leaf() {
            Some(leaf) => leaf_name(alloc, leaf)?,
            None => key_name(alloc, self.key().unwrap_or(&[]))?,
        };
        Ok(KeyName::from(text))
    }

    fn leaf(&self) -> Option<&'a [u8]>
        ensures { option_map (λ b. b.now) result ≡ in_either leaf_in (message self.now) }
    {
        match leaf_in(Some(self.parts.unprotected)) {
            Some(leaf) => Some(leaf),
            None => leaf_in(self.protected),
        }
    }

    fn key(&self) -> Option<&'a [u8]>
        ensures { option_map (λ b. b.now) result ≡ in_either key_in (message self.now) }
    {
        match key_in(Some(self.parts.unprotected)) {
            Some(key) => Some(key),
            None => key_in(self.protected),
        }
    }
}

fn leaf_in<'a>(headers: Option<Item<'a>>) -> Option<&'a [u8]>
    ensures { option_map (λ b. b.now) result ≡ leaf_in (headers_of headers.entry) }
{
    certificate_in(find_label(headers?, CERTIFICATES)?)
}

// A certificate, or the first certificate of a chain.
fn certificate_in<'a>(value: Item<'a>) -> Option<&'a [u8]>
    ensures { option_map (λ b. b.now) result ≡ certificate_in (span_of value.entry) }
{
    match value.bytes() {
        Some(certificate) => Some(certificate),
        None => value.items().next()?.bytes(),
    }
}

fn key_in<'a>(headers: Option<Item<'a>>) -> Option<&'a [u8]>
    ensures { option_map (λ b. b.now) result ≡ key_in (headers_of headers.entry) }
{
    find_label(headers?, KEY_IDENTIFIER)?.bytes()
}

fn key_name(alloc: Global, key: &[u8]) -> Result<String, NoMemory>
    ensures { IfOk result (λ text. string_bytes text ≡ named_key key.now) }
{
    let hex = to_hex(alloc, key)?;
    Ok(format!(in alloc; "mkid:{hex}")?)
}
