// Reading a spec.
ghost use Rattle.std.specs.Prelude.{◌≡◌, IfOk, IfErr, None, true};
ghost use Rattle.serde_json.specs.View.{view};
ghost use Rattle.claim_tree.specs.Tree.{is_claim};
ghost use Rattle.claim_tree.specs.Plain.{plain};
ghost use Rattle.sdjwt_issue.specs.Spec.{IsSdJwtSpec};
ghost use Rattle.sdjwt_issue.specs.code.Asking.{asked_of};
ghost use Rattle.spec_forms.specs.Refusal.{IsRefusal};
ghost use Rattle.sdjwt_spec.specs.Meaning.{spec_of};
ghost use Rattle.sdjwt_spec.specs.Rules.{form_rule, spec_rule};

use crate::members::{read_claims, read_hide, read_holder, read_key, read_kind, read_moment};
use crate::rules::content_rule;
use sdjwt_issue::SdJwtSpec;
use serde_json::Value;
use spec_forms::Error;
use std::alloc::Global;

/// The spec of a test SD-JWT VC that a JSON value is. Members that are not named here are passed over.
///
/// # Errors
///
/// [`Error::Refused`] with the least rule that is broken:
///
/// 1. `key` is not the name, `kid:` and the compact JSON of the issuer and its key's identifier, of an
///    issuer's key; `kind` is no string; `holder` is there and not the name, `jwk:` and the compact JSON of
///    a JSON Web Key without a number that is no integer, of a holder's key; `from` or `until` is there and
///    no integer from 0; `claims` is no object; `hide` is no list of addresses, which are lists of names and
///    of places from 0.
/// 2. An address is empty, or leads to no part of the claims.
/// 3. An address stands twice.
/// 4. A member at any depth of the claims or of the holder's key is named `_sd` or `...`, or a claim `iss`,
///    `nbf`, `exp`, `cnf`, `vct`, `status` or `_sd_alg`.
/// 5. There are more than 1,024 addresses; more than 64 lists and objects stand inside one another in the
///    claims, or more than 62 in the holder's key; or a number in the claims is no integer of 64 bits.
///
/// [`Error::NoMemory`] where it is out of memory.
pub fn read_sdjwt_spec(alloc: Global, spec: &Value) -> Result<SdJwtSpec, Error>
    ensures unbroken { IfOk result (λ _. spec_rule (view spec.now) ≡ None) }
    ensures meant { IfOk result (λ s. asked_of s ≡ spec_of (view spec.now)) }
    ensures refused { IfErr result (IsRefusal (spec_rule (view spec.now))) }
    ensures may_be_issued { IfOk result
        (λ s. is_claim (plain (view spec.now)) ≡ true → IsSdJwtSpec (asked_of s)) }
{
    let read = read_members(alloc, spec)?;
    match content_rule(&read) {
        Some(rule) => Err(Error::Refused(rule)),
        None => Ok(read),
    }
}

#[tactic(auto, unfolding(base_forms::specs::Rules::rule))]
fn read_members(alloc: Global, spec: &Value) -> Result<SdJwtSpec, Error>
    ensures unbroken { IfOk result (λ _. form_rule (view spec.now) ≡ None) }
    ensures meant { IfOk result (λ s. asked_of s ≡ spec_of (view spec.now)) }
    ensures refused { IfErr result (IsRefusal (form_rule (view spec.now))) }
{
    let key = read_key(alloc, spec)?;
    let kind = read_kind(alloc, spec)?;
    let holder = read_holder(alloc, spec)?;
    let from = read_moment(spec, "from")?;
    let until = read_moment(spec, "until")?;
    let claims = read_claims(spec)?;
    let hide = read_hide(alloc, spec)?;
    Ok(SdJwtSpec {
        key_name: key.name,
        issuer: key.issuer,
        key: key.key,
        kind,
        holder,
        from,
        until,
        claims,
        hide,
    })
}
