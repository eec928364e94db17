// What the names of keys say.
ghost use Rattle.std.specs.Prelude.{◌≡◌, ◌++◌, IfOk, IfSome, Some, codes, option_map, string_bytes};
ghost use Rattle.base_forms.specs.Base16.{hex_of};
ghost use Rattle.mdoc_spec.specs.Names.{bytes_in, key_identifier_in, is_written_key, holder_key_in};

use base_forms::{from_hex, to_hex};
use cbor_core::read_one;
use claim_tree::KeyName;
use mdoc_security::{is_key, key_bytes};
use spec_forms::{NoMemory, after_colon};
use std::alloc::Global;

// The name of an issuer's key, and its identifier.
#[derive(Drop)]
pub(crate) struct IssuerKey {
    pub(crate) name: KeyName,
    pub(crate) identifier: Vec<u8>,
}

// The identifier of a `mkid:` name, where the text is one.
pub(crate) fn read_mkid_name(alloc: Global, name: &str) -> Result<Option<IssuerKey>, NoMemory>
    ensures identifier { IfOk result
        (λ o. option_map (λ k. k.identifier.items) o ≡ key_identifier_in name.now) }
    ensures named { IfOk result (λ o. IfSome o (λ k. k.name ≡ name.now)) }
{
    let Some(identifier) = bytes_in(alloc, name)? else {
        return Ok(None);
    };
    let hex = to_hex(alloc, &identifier)?;
    let written = format!(in alloc; "mkid:{hex}")?;
    if name != written.as_str() {
        return Ok(None);
    }
    Ok(Some(IssuerKey {
        name: KeyName::from(written),
        identifier,
    }))
}

// The encoding of the key of a `cose:` name, where the text is one.
pub(crate) fn read_cose_name(alloc: Global, name: &str) -> Result<Option<Vec<u8>>, NoMemory>
    ensures { IfOk result (λ o. option_map (λ v. v.items) o ≡ holder_key_in name.now) }
{
    let Some(key) = bytes_in(alloc, name)? else {
        return Ok(None);
    };
    let hex = to_hex(alloc, &key)?;
    let written = format!(in alloc; "cose:{hex}")?;
    if name == written.as_str() && is_written_key(alloc, &key)? {
        Ok(Some(key))
    } else {
        Ok(None)
    }
}

// The bytes whose hexadecimal stands after the first colon.
fn bytes_in(alloc: Global, name: &str) -> Result<Option<Vec<u8>>, NoMemory>
    ensures { IfOk result (λ o. option_map (λ v. v.items) o ≡ bytes_in name.now) }
{
    match from_hex(alloc, after_colon(name)) {
        Ok(bytes) => Ok(Some(bytes)),
        Err(base_forms::Error::Refused(_)) => Ok(None),
        Err(base_forms::Error::NoMemory) => Err(NoMemory),
    }
}

// Whether the bytes are a key in deterministic encoding, with no list or map inside.
fn is_written_key(alloc: Global, bytes: &[u8]) -> Result<bool, NoMemory>
    ensures { IfOk result (λ b. b ≡ is_written_key bytes.now) }
{
    let key = match read_one(alloc, bytes, 1) {
        Ok(key) => key,
        Err(cbor_core::Error::Refused(_)) => return Ok(false),
        Err(cbor_core::Error::NoMemory) => return Err(NoMemory),
    };
    if !is_key(key) {
        return Ok(false);
    }
    match key_bytes(alloc, key) {
        Ok(written) => Ok(written.as_slice() == bytes),
        Err(_error) => Err(NoMemory),
    }
}
