// The members of a spec, each by its own form.
ghost use Rattle.std.specs.Prelude.{◌≡◌, IfOk, IfErr, Some, codes, is_none, option_map, string_bytes};
ghost use Rattle.serde_json.specs.View.{view, members_view};
ghost use Rattle.json_forms.specs.Look.{text_at};
ghost use Rattle.base_forms.specs.Rules.{rule};
ghost use Rattle.spec_forms.specs.Refusal.{IsRefusal};
ghost use Rattle.sdjwt_spec.specs.Meaning.{key_in, kind_in, holder_of, holder_in, moment_in, claims_in};
ghost use Rattle.sdjwt_spec.specs.Meaning.{hide_in};
ghost use Rattle.sdjwt_spec.specs.code.Parts.{parts_of};

use crate::addresses::read_addresses;
use crate::key_names::{IssuerKey, read_jwk_name, read_kid_name};
use claim_tree::Address;
use json_forms::text_at;
use serde_json::{Map, Value};
use spec_forms::{Error, NoMemory};
use std::alloc::Global;

#[tactic(auto, unfolding(base_forms::specs::Rules::rule))]
pub(crate) fn read_key(alloc: Global, spec: &Value) -> Result<IssuerKey, Error>
    ensures parts { IfOk result (λ k. key_in (view spec.now) ≡ Some (parts_of k)) }
    ensures named { IfOk result (λ k. text_at (codes "key") (view spec.now) ≡ Some k.name) }
    ensures refused { IfErr result (IsRefusal (rule 1 (is_none (key_in (view spec.now))))) }
{
    let Some(name) = text_at(spec, "key") else {
        return Err(Error::Refused(1));
    };
    match read_kid_name(alloc, name)? {
        Some(key) => Ok(key),
        None => Err(Error::Refused(1)),
    }
}

#[tactic(auto, unfolding(base_forms::specs::Rules::rule))]
pub(crate) fn read_kind(alloc: Global, spec: &Value) -> Result<String, Error>
    ensures read { IfOk result (λ k. kind_in (view spec.now) ≡ Some (string_bytes k)) }
    ensures refused { IfErr result (IsRefusal (rule 1 (is_none (kind_in (view spec.now))))) }
{
    match text_at(spec, "kind") {
        Some(kind) => Ok(String::from_str(alloc, kind)?),
        None => Err(Error::Refused(1)),
    }
}

#[tactic(auto, unfolding(base_forms::specs::Rules::rule))]
pub(crate) fn read_holder(alloc: Global, spec: &Value) -> Result<Option<Value>, Error>
    ensures read { IfOk result (λ h. holder_in (view spec.now) ≡ Some (option_map view h)) }
    ensures refused { IfErr result (IsRefusal (rule 1 (is_none (holder_in (view spec.now))))) }
{
    let Some(holder) = spec.get("holder") else {
        return Ok(None);
    };
    match holder_of(alloc, holder)? {
        Some(jwk) => Ok(Some(jwk)),
        None => Err(Error::Refused(1)),
    }
}

fn holder_of(alloc: Global, holder: &Value) -> Result<Option<Value>, NoMemory>
    ensures { IfOk result (λ o. option_map view o ≡ holder_of (view holder.now)) }
{
    match holder.as_str() {
        Some(name) => read_jwk_name(alloc, name),
        None => Ok(None),
    }
}

#[tactic(auto, unfolding(base_forms::specs::Rules::rule))]
pub(crate) fn read_moment(spec: &Value, name: &str) -> Result<Option<u64>, Error>
    ensures read { IfOk result (λ m. moment_in name.now (view spec.now) ≡ Some m) }
    ensures refused { IfErr result (IsRefusal (rule 1 (is_none (moment_in name.now (view spec.now))))) }
{
    let Some(value) = spec.get(name) else {
        return Ok(None);
    };
    match value.as_u64() {
        Some(moment) => Ok(Some(moment)),
        None => Err(Error::Refused(1)),
    }
}

#[tactic(auto, unfolding(base_forms::specs::Rules::rule))]
pub(crate) fn read_claims(spec: &Value) -> Result<Map<String, Value>, Error>
    ensures read { IfOk result (λ m. claims_in (view spec.now) ≡ Some (members_view m.entries)) }
    ensures refused { IfErr result (IsRefusal (rule 1 (is_none (claims_in (view spec.now))))) }
{
    let Some(claims) = spec.get("claims") else {
        return Err(Error::Refused(1));
    };
    match claims.clone()? {
        Value::Object(members) => Ok(members),
        _ => Err(Error::Refused(1)),
    }
}

#[tactic(auto, unfolding(base_forms::specs::Rules::rule))]
pub(crate) fn read_hide(alloc: Global, spec: &Value) -> Result<Vec<Address>, Error>
    ensures read { IfOk result (λ v. hide_in (view spec.now) ≡ Some v.items) }
    ensures refused { IfErr result (IsRefusal (rule 1 (is_none (hide_in (view spec.now))))) }
{
    let Some(hide) = spec.get("hide") else {
        return Err(Error::Refused(1));
    };
    match read_addresses(alloc, hide)? {
        Some(addresses) => Ok(addresses),
        None => Err(Error::Refused(1)),
    }
}
