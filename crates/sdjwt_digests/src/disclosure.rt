// A disclosure.
ghost use Rattle.std.specs.Prelude.{◌≡◌, [], ◌∷◌, true, IfOk, map, option_map, string_bytes};
ghost use Rattle.serde_json.specs.View.{view};
ghost use Rattle.claim_tree.specs.Tree.{is_claim};
ghost use Rattle.claim_tree.specs.Plain.{plain};
ghost use Rattle.sdjwt_digests.specs.Disclosures.{json_in, salted, digest_of};

use base_forms::{HashName, from_url64, to_url64};
use json_forms::read_json;
use serde_json::Value;
use std::alloc::{AllocError, Global};

/// What a holder may leave out: a member with its name, or an element.
#[derive(Drop)]
pub struct Disclosure {
    digest: String,
    name: Option<String>,
    value: Value,
    ghost sound: { is_claim (plain (view value)) ≡ true },
}

impl Disclosure {
    ghost use Rattle.sdjwt_digests.specs.Disclosure.{said};
    ghost use Rattle.sdjwt_digests.specs.Disclosures.{disclosed};

    /// What a disclosure's text says, and none where it is no base64url of `[salt, name, value]` or `[salt,
    /// value]`.
    pub fn read(alloc: Global, hash: HashName, text: &str) -> Result<Option<Disclosure>, AllocError>
        ensures { IfOk result (λ o. option_map said o ≡ disclosed hash text.now) }
    {
        let Some(json) = json_in(alloc, text)? else {
            return Ok(None);
        };
        let Value::Array(parts) = json else {
            return Ok(None);
        };
        let Some((name, value)) = salted(parts) else {
            return Ok(None);
        };
        let digest = digest_of(alloc, hash, text)?;
        Ok(Some(Disclosure {
            digest,
            name,
            value,
        }))
    }

    pub fn digest(&self) -> &str
        ensures { result.now ≡ (said self.now).digest }
    {
        self.digest.as_str()
    }

    pub fn name(&self) -> Option<&str>
        ensures { option_map (λ s. s.now) result ≡ (said self.now).name }
    {
        match &self.name {
            Some(name) => Some(name.as_str()),
            None => None,
        }
    }

    pub fn value(&self) -> &Value
        ensures { view result.now ≡ (said self.now).value }
    {
        &self.value
    }
}

fn json_in(alloc: Global, text: &str) -> Result<Option<Value>, AllocError>
    ensures { IfOk result (λ o. option_map view o ≡ json_in text.now) }
{
    match from_url64(alloc, text) {
        Ok(bytes) => read_json(alloc, &bytes),
        Err(base_forms::Error::Refused(_)) => Ok(None),
        Err(base_forms::Error::NoMemory) => Err(AllocError),
    }
}

fn digest_of(alloc: Global, hash: HashName, text: &str) -> Result<String, AllocError>
    ensures { IfOk result (λ s. string_bytes s ≡ digest_of hash text.now) }
{
    let digest = hash.digest(text.as_bytes());
    match to_url64(alloc, digest.bytes()) {
        Ok(text) => Ok(text),
        Err(_) => Err(AllocError),
    }
}

// The name and the value that follow the salt.
fn salted(parts: Vec<Value>) -> Option<(Option<String>, Value)>
    ensures { option_map (λ p. (option_map string_bytes p.0, view p.1)) result ≡ salted
        (map view parts.items) }
{
    match <[Value; 2]>::try_from(parts) {
        Ok([salt, value]) => element(salt, value),
        Err(parts) => match <[Value; 3]>::try_from(parts) {
            Ok([salt, name, value]) => member(salt, name, value),
            Err(_parts) => None,
        },
    }
}

// `[salt, value]`: an element.
fn element(salt: Value, value: Value) -> Option<(Option<String>, Value)>
    ensures { option_map (λ p. (option_map string_bytes p.0, view p.1)) result ≡ salted
        (view salt ∷ view value ∷ []) }
{
    if salt.is_string() {
        Some((None, value))
    } else {
        None
    }
}

// `[salt, name, value]`: a member.
fn member(salt: Value, name: Value, value: Value) -> Option<(Option<String>, Value)>
    ensures { option_map (λ p. (option_map string_bytes p.0, view p.1)) result ≡ salted
        (view salt ∷ view name ∷ view value ∷ []) }
{
    if !salt.is_string() {
        return None;
    }
    match name {
        Value::String(name) => Some((Some(name), value)),
        _ => None,
    }
}
