// Reading a spec.
ghost use Rattle.std.specs.Prelude.{◌≡◌, true, IfOk, IfErr, None, Some};
ghost use Rattle.serde_json.specs.View.{view};
ghost use Rattle.claim_tree.specs.Tree.{is_claim};
ghost use Rattle.claim_tree.specs.Plain.{plain};
ghost use Rattle.spec_forms.specs.Refusal.{IsRefusal};
ghost use Rattle.issue_spec.specs.Spec.{value_in, format_in, rule_by, asked_by, spec_rule, asked_in};
ghost use Rattle.issue_spec.specs.Spec.{MayBeIssued};
ghost use Rattle.issue_spec.specs.code.Asking.{asked_of};

use crate::spec::IssueSpec;
use claim_tree::Format;
use json_forms::{read_json, text_at};
use mdoc_spec::read_mdoc_spec;
use sdjwt_spec::read_sdjwt_spec;
use serde_json::Value;
use spec_forms::{Error, NoMemory};
use std::alloc::Global;

/// The spec that a text is: one JSON object whose `format` is `dc+sd-jwt` or `mso_mdoc`, and whose other
/// members say what is written in this format. What is read may be issued.
///
/// # Errors
///
/// [`Error::Refused`] with the least rule that is broken: 1 where the text is no such object; and else as
/// [`sdjwt_spec::read_sdjwt_spec`] and [`mdoc_spec::read_mdoc_spec`] say for the format.
///
/// [`Error::NoMemory`] where it is out of memory.
pub fn read_spec(alloc: Global, text: &str) -> Result<IssueSpec, Error>
    ensures unbroken { IfOk result (λ _. spec_rule text.now ≡ None) }
    ensures meant { IfOk result (λ s. asked_in text.now ≡ Some (asked_of s)) }
    ensures refused { IfErr result (IsRefusal (spec_rule text.now)) }
    ensures may_be_issued { IfOk result (λ s. MayBeIssued (asked_of s)) }
{
    let value = value_in(alloc, text)?;
    read_value(alloc, &value)
}

fn read_value(alloc: Global, spec: &Value) -> Result<IssueSpec, Error>
    ensures unbroken { IfOk result
        (λ _. rule_by (format_in (view spec.now)) (view spec.now) ≡ None) }
    ensures meant { IfOk result
        (λ s. asked_by (format_in (view spec.now)) (view spec.now) ≡ Some (asked_of s)) }
    ensures refused { IfErr result
        (IsRefusal (rule_by (format_in (view spec.now)) (view spec.now))) }
    ensures may_be_issued { IfOk result
        (λ s. is_claim (plain (view spec.now)) ≡ true → MayBeIssued (asked_of s)) }
{
    let Some(format) = format_in(spec) else {
        return Err(Error::Refused(1));
    };
    match format {
        Format::SdJwt => Ok(IssueSpec::SdJwt(read_sdjwt_spec(alloc, spec)?)),
        Format::Mdoc => Ok(IssueSpec::Mdoc(read_mdoc_spec(alloc, spec)?)),
    }
}

// The JSON value of the text, and null where it is no JSON text.
fn value_in(alloc: Global, text: &str) -> Result<Value, NoMemory>
    ensures { IfOk result (λ v. view v ≡ value_in text.now) }
{
    match read_json(alloc, text.as_bytes())? {
        Some(value) => Ok(value),
        None => Ok(Value::Null),
    }
}

fn format_in(spec: &Value) -> Option<Format>
    ensures { result ≡ format_in (view spec.now) }
{
    match text_at(spec, "format") {
        Some("dc+sd-jwt") => Some(Format::SdJwt),
        Some("mso_mdoc") => Some(Format::Mdoc),
        _ => None,
    }
}
