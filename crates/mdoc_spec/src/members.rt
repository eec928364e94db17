// The members of a spec, each by its own form.
ghost use Rattle.std.specs.Prelude.{◌≡◌, IfOk, IfErr, Some, codes, is_none, string_bytes};
ghost use Rattle.serde_json.specs.View.{view, members_view};
ghost use Rattle.json_forms.specs.Look.{text_at};
ghost use Rattle.base_forms.specs.Rules.{rule};
ghost use Rattle.sdjwt_facts.specs.Facts.{moment_at};
ghost use Rattle.spec_forms.specs.Refusal.{IsRefusal};
ghost use Rattle.mdoc_spec.specs.Meaning.{key_in, kind_in, holder_in, moment_in, claims_in};

use crate::elements::are_namespaces;
use crate::key_names::{IssuerKey, read_cose_name, read_mkid_name};
use crate::spelling::has_misspelled_element;
use json_forms::text_at;
use serde_json::{Map, Value};
use spec_forms::Error;
use std::alloc::Global;

// The first second of the year 10000, which no date has.
const YEAR_10000: u64 = 253_402_300_800;

#[tactic(auto, unfolding(base_forms::specs::Rules::rule))]
pub(crate) fn read_key(alloc: Global, spec: &Value) -> Result<IssuerKey, Error>
    ensures read { IfOk result (λ k. key_in (view spec.now) ≡ Some k.identifier.items) }
    ensures named { IfOk result (λ k. text_at (codes "key") (view spec.now) ≡ Some k.name) }
    ensures refused { IfErr result (IsRefusal (rule 1 (is_none (key_in (view spec.now))))) }
{
    let Some(name) = text_at(spec, "key") else {
        return Err(Error::Refused(1));
    };
    match read_mkid_name(alloc, name)? {
        Some(key) => Ok(key),
        None => Err(Error::Refused(1)),
    }
}

#[tactic(auto, unfolding(base_forms::specs::Rules::rule))]
pub(crate) fn read_kind(alloc: Global, spec: &Value) -> Result<String, Error>
    ensures read { IfOk result (λ k. kind_in (view spec.now) ≡ Some (string_bytes k)) }
    ensures refused { IfErr result (IsRefusal (rule 1 (is_none (kind_in (view spec.now))))) }
{
    match text_at(spec, "kind") {
        Some(kind) => Ok(String::from_str(alloc, kind)?),
        None => Err(Error::Refused(1)),
    }
}

#[tactic(auto, unfolding(base_forms::specs::Rules::rule))]
pub(crate) fn read_holder(alloc: Global, spec: &Value) -> Result<Vec<u8>, Error>
    ensures read { IfOk result (λ h. holder_in (view spec.now) ≡ Some h.items) }
    ensures refused { IfErr result (IsRefusal (rule 1 (is_none (holder_in (view spec.now))))) }
{
    let Some(name) = text_at(spec, "holder") else {
        return Err(Error::Refused(1));
    };
    match read_cose_name(alloc, name)? {
        Some(key) => Ok(key),
        None => Err(Error::Refused(1)),
    }
}

#[tactic(auto, unfolding(base_forms::specs::Rules::rule))]
pub(crate) fn read_moment(spec: &Value, name: &str) -> Result<u64, Error>
    ensures read { IfOk result (λ m. moment_in name.now (view spec.now) ≡ Some m) }
    ensures refused { IfErr result (IsRefusal (rule 1 (is_none (moment_in name.now (view spec.now))))) }
{
    match moment_at(spec, name) {
        Some(moment) if moment < YEAR_10000 => Ok(moment),
        _ => Err(Error::Refused(1)),
    }
}

fn moment_at(spec: &Value, name: &str) -> Option<u64>
    ensures { result ≡ moment_at name.now (view spec.now) }
{
    match spec.get(name) {
        Some(value) => value.as_u64(),
        None => None,
    }
}

#[tactic(auto, unfolding(base_forms::specs::Rules::rule))]
pub(crate) fn read_claims(alloc: Global, spec: &Value) -> Result<Map<String, Value>, Error>
    ensures read { IfOk result (λ m. claims_in (view spec.now) ≡ Some (members_view m.entries)) }
    ensures refused { IfErr result (IsRefusal (rule 1 (is_none (claims_in (view spec.now))))) }
{
    let Some(claims) = spec.get("claims") else {
        return Err(Error::Refused(1));
    };
    let Value::Object(namespaces) = claims.clone()? else {
        return Err(Error::Refused(1));
    };
    if !are_namespaces(&namespaces) || has_misspelled_element(alloc, &namespaces)? {
        return Err(Error::Refused(1));
    }
    Ok(namespaces)
}
