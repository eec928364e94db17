//! The names of keys, written from their parts.
ghost use Rattle.std.specs.Prelude.{◌≡◌, false, IfOk};
ghost use Rattle.serde_json.specs.View.{view};
ghost use Rattle.serde_json.specs.Written.{has_float};
ghost use Rattle.jws_envelope.specs.KeyNames.{kid_name, jwk_name};

use crate::error::NoMemory;
use claim_tree::KeyName;
use serde_json::{Value, json};
use std::alloc::Global;

/// `kid:` and the compact JSON list of an issuer and its key's identifier.
pub fn kid_name(alloc: Global, issuer: &str, key: &str) -> Result<KeyName, NoMemory>
    ensures { IfOk result (λ name. name ≡ kid_name issuer.now key.now) }
{
    let list = json!(in alloc; [issuer, key])?.to_string(alloc)?;
    let name = format!(in alloc; "kid:{list}")?;
    Ok(KeyName::from(name))
}

/// `jwk:` and the compact JSON of a JSON Web Key in which every number is an integer.
pub fn jwk_name(alloc: Global, jwk: &Value) -> Result<KeyName, NoMemory>
    requires { has_float (view jwk.now) ≡ false }
    ensures { IfOk result (λ name. name ≡ jwk_name (view jwk.now)) }
{
    let key = jwk.to_string(alloc)?;
    let name = format!(in alloc; "jwk:{key}")?;
    Ok(KeyName::from(name))
}
