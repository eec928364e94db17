// Disclosures as they are written.
ghost use Rattle.std.specs.Prelude.{◌≡◌, false, Some, IfOk, option_map, string_bytes};
ghost use Rattle.serde_json.specs.View.{view};
ghost use Rattle.serde_json.specs.Written.{has_float};
ghost use Rattle.base_forms.specs.declared.hash.HashName.TheVariants.{Sha256};
ghost use Rattle.sdjwt_digests.specs.Disclosures.{digest_of};
ghost use Rattle.sdjwt_hiding.specs.Disclosing.{salt, salted_value, disclosure_text, written_as, told};
ghost use Rattle.sdjwt_hiding.specs.Disclosing.{IsReadBack};
ghost use Rattle.sdjwt_hiding.specs.Issued.{made_of};

use crate::error::NoMemory;
use base_forms::{HashName, to_url64};
use serde_json::Value;
use std::alloc::Global;

/// A disclosure: its place among all those of the credential, its digest and its text.
#[derive(Drop)]
pub struct IssuedDisclosure {
    pub number: u64,
    pub digest: String,
    pub text: String,
}

fn salt(alloc: Global, number: u64) -> Result<String, NoMemory>
    ensures { IfOk result (λ t. string_bytes t ≡ salt number) }
{
    let bytes = u128::from(number).to_be_bytes();
    Ok(to_url64(alloc, &bytes)?)
}

// The list of a salt, a name where there is one, and a value.
fn salted_value(
    alloc: Global,
    number: u64,
    name: Option<&str>,
    value: Value,
) -> Result<Value, NoMemory>
    ensures { IfOk result
        (λ v. view v ≡ salted_value number (option_map (λ s. s.now) name.entry) (view value)) }
{
    let mut list = Vec::with_capacity(alloc, 3)?;
    list.push(Value::String(salt(alloc, number)?))?;
    if let Some(name) = name {
        list.push(Value::String(String::from_str(alloc, name)?))?;
    }
    list.push(value)?;
    Ok(Value::Array(list))
}

fn disclosure_text(
    alloc: Global,
    number: u64,
    name: Option<&str>,
    value: Value,
) -> Result<String, NoMemory>
    requires { has_float (view value) ≡ false }
    ensures written { IfOk result
        (λ t. string_bytes t ≡ disclosure_text number (option_map (λ s. s.now) name.entry) (view value)) }
    ensures read { IfOk result
        (λ _. IsReadBack (written_as number (option_map (λ s. s.now) name.entry) (view value))) }
{
    let json = salted_value(alloc, number, name, value)?.to_string(alloc)?;
    Ok(to_url64(alloc, json.as_bytes())?)
}

// The digest of a disclosure's text, by SHA-256.
fn digest(alloc: Global, text: &str) -> Result<String, NoMemory>
    ensures { IfOk result (λ s. string_bytes s ≡ digest_of Sha256 text.now) }
{
    let digest = HashName::Sha256.digest(text.as_bytes());
    Ok(to_url64(alloc, digest.bytes())?)
}

// The disclosure of a member of this name, or of an element, with this value.
pub fn disclose(
    alloc: Global,
    number: u64,
    name: Option<&str>,
    value: Value,
) -> Result<IssuedDisclosure, NoMemory>
    requires { has_float (view value) ≡ false }
    ensures written { IfOk result
        (λ d. made_of d ≡ told (written_as number (option_map (λ s. s.now) name.entry) (view value))) }
    ensures read { IfOk result
        (λ _. IsReadBack (written_as number (option_map (λ s. s.now) name.entry) (view value))) }
{
    let text = disclosure_text(alloc, number, name, value)?;
    let digest = digest(alloc, text.as_str())?;
    Ok(IssuedDisclosure {
        number,
        digest,
        text,
    })
}
