// The facts of an SD-JWT VC: type, dates and holder.
ghost use Rattle.std.specs.Prelude.{◌≡◌, ◌++◌, true, false, None, IfOk, IfErr, codes, is_some, option_map};
ghost use Rattle.std.specs.Prelude.{string_bytes};
ghost use Rattle.serde_json.specs.View.{view};
ghost use Rattle.serde_json.specs.Find.{get};
ghost use Rattle.json_forms.specs.Look.{is_wrong};
ghost use Rattle.sdjwt_facts.specs.Facts.{moment_of, is_moment, moment_at, is_key, is_holder, facts_rule};
ghost use Rattle.sdjwt_facts.specs.Facts.{holder_of, kind_of, first_of, past_of};

use claim_tree::KeyName;
use json_forms::{has_float, text_at};
use jws_envelope::key_names::jwk_name;
use serde_json::Value;
use std::alloc::{AllocError, Global};

/// The first of the rules on type, dates and holder that is broken.
#[tactic(auto, unfolding(base_forms::specs::Rules::rule, crate::specs::Facts::facts_rule))]
pub fn facts_rule(payload: &Value) -> Option<u8>
    ensures { result ≡ facts_rule (view payload.now) }
{
    if text_at(payload, "vct").is_none() {
        Some(15)
    } else if has_wrong_moment(payload, "nbf") || has_wrong_moment(payload, "exp") {
        Some(16)
    } else if has_wrong_holder(payload) {
        Some(17)
    } else {
        None
    }
}

/// The credential's type, empty where it has none.
pub fn kind_of(payload: &Value) -> &str
    ensures { result.now ≡ kind_of (view payload.now) }
{
    text_at(payload, "vct").unwrap_or("")
}

/// The second from which on it is valid, 0 where it names none.
pub fn first_of(payload: &Value) -> u64
    ensures { result ≡ first_of (view payload.now) }
{
    moment_at(payload, "nbf").unwrap_or(0)
}

/// The first second after its validity, if it names one.
pub fn past_of(payload: &Value) -> Option<u64>
    ensures { result ≡ past_of (view payload.now) }
{
    moment_at(payload, "exp")
}

/// The name of the key that it is bound to, if it is bound to one.
pub fn holder_of(alloc: Global, payload: &Value) -> Result<Option<KeyName>, AllocError>
    requires { facts_rule (view payload.now) ≡ None }
    ensures { IfOk result (λ o. o ≡ holder_of (view payload.now)) }
{
    let Some(cnf) = payload.get("cnf") else {
        return Ok(None);
    };
    let Some(jwk) = cnf.get("jwk") else {
        return Ok(None);
    };
    match jwk_name(alloc, jwk) {
        Ok(name) => Ok(Some(name)),
        Err(_) => Err(AllocError),
    }
}

fn moment_of(value: &Value) -> Option<u64>
    ensures { result ≡ moment_of (view value.now) }
{
    value.as_u64()
}

fn moment_at(payload: &Value, name: &str) -> Option<u64>
    ensures { result ≡ moment_at name.now (view payload.now) }
{
    match payload.get(name) {
        Some(value) => moment_of(value),
        None => None,
    }
}

// Whether there is such a member, and it is no integer from 0.
fn has_wrong_moment(payload: &Value, name: &str) -> bool
    ensures { result ≡ is_wrong is_moment (get name.now (view payload.now)) }
{
    match payload.get(name) {
        Some(value) => moment_of(value).is_none(),
        None => false,
    }
}

fn is_key(jwk: &Value) -> bool
    ensures { result ≡ is_key (view jwk.now) }
{
    jwk.is_object() && !has_float(jwk)
}

fn is_holder(cnf: &Value) -> bool
    ensures { result ≡ is_holder (view cnf.now) }
{
    if !cnf.is_object() {
        return false;
    }
    match cnf.get("jwk") {
        Some(jwk) => is_key(jwk),
        None => true,
    }
}

fn has_wrong_holder(payload: &Value) -> bool
    ensures { result ≡ is_wrong is_holder (get (codes "cnf") (view payload.now)) }
{
    match payload.get("cnf") {
        Some(cnf) => !is_holder(cnf),
        None => false,
    }
}
