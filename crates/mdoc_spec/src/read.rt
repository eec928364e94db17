// Reading a spec.
ghost use Rattle.std.specs.Prelude.{◌≡◌, IfOk, IfErr, None, true};
ghost use Rattle.serde_json.specs.View.{view};
ghost use Rattle.claim_tree.specs.Tree.{is_claim};
ghost use Rattle.claim_tree.specs.Plain.{plain};
ghost use Rattle.mdoc_issue.specs.Spec.{IsMdocSpec};
ghost use Rattle.mdoc_issue.specs.code.Asking.{asked_of};
ghost use Rattle.spec_forms.specs.Refusal.{IsRefusal};
ghost use Rattle.mdoc_spec.specs.Meaning.{spec_of};
ghost use Rattle.mdoc_spec.specs.Rules.{form_rule, spec_rule};

use crate::members::{read_claims, read_holder, read_key, read_kind, read_moment};
use crate::rules::content_rule;
use mdoc_issue::MdocSpec;
use serde_json::Value;
use spec_forms::Error;
use std::alloc::Global;

/// The spec of a test mobile document that a JSON value is. Members that are not named here are passed over.
///
/// # Errors
///
/// [`Error::Refused`] with the least rule that is broken:
///
/// 1. `key` is not the name, `mkid:` and the lower-case hexadecimal of its identifier, of an issuer's key;
///    `kind` is no string; `holder` is not the name, `cose:` and the lower-case hexadecimal of its
///    deterministic encoding, of a COSE key that a document may be bound to; `from` or `until` is no integer
///    from 0 that is a second before the year 10000; `claims` is no object of objects; or an object in an
///    element's value has a member `$bytes` or `$date` and stands for no byte string and no date.
/// 4. A namespace, an element or a member in its value is named `_sd` or `...`.
/// 5. There are more than 1,024 elements; more than 31 lists, maps and tags stand inside one another in the
///    encoding of an element's value; or a number in one is no integer of 64 bits.
///
/// [`Error::NoMemory`] where it is out of memory.
pub fn read_mdoc_spec(alloc: Global, spec: &Value) -> Result<MdocSpec, Error>
    ensures unbroken { IfOk result (λ _. spec_rule (view spec.now) ≡ None) }
    ensures meant { IfOk result (λ s. asked_of s ≡ spec_of (view spec.now)) }
    ensures refused { IfErr result (IsRefusal (spec_rule (view spec.now))) }
    ensures may_be_issued { IfOk result
        (λ s. is_claim (plain (view spec.now)) ≡ true → IsMdocSpec (asked_of s)) }
{
    let read = read_members(alloc, spec)?;
    match content_rule(alloc, &read)? {
        Some(rule) => Err(Error::Refused(rule)),
        None => Ok(read),
    }
}

#[tactic(auto, unfolding(base_forms::specs::Rules::rule))]
fn read_members(alloc: Global, spec: &Value) -> Result<MdocSpec, Error>
    ensures unbroken { IfOk result (λ _. form_rule (view spec.now) ≡ None) }
    ensures meant { IfOk result (λ s. asked_of s ≡ spec_of (view spec.now)) }
    ensures refused { IfErr result (IsRefusal (form_rule (view spec.now))) }
{
    let key = read_key(alloc, spec)?;
    let kind = read_kind(alloc, spec)?;
    let holder = read_holder(alloc, spec)?;
    let from = read_moment(spec, "from")?;
    let until = read_moment(spec, "until")?;
    let namespaces = read_claims(alloc, spec)?;
    Ok(MdocSpec {
        key_name: key.name,
        key: key.identifier,
        kind,
        holder,
        from,
        until,
        namespaces,
    })
}
