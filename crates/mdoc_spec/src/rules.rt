// The rules about what the members of a spec ask.
ghost use Rattle.std.specs.Prelude.{◌≡◌, IfOk, None, false};
ghost use Rattle.serde_json.specs.View.{members_view};
ghost use Rattle.mdoc_issue.specs.code.Asking.{asked_of};
ghost use Rattle.mdoc_spec.specs.Rules.{breaks_limit, content_rule};
ghost use Rattle.mdoc_spec.specs.code.Texts.{HoldStored};

use crate::elements::are_too_many;
use crate::integers::members_have_fraction;
use crate::levels::has_deep_element;
use mdoc_issue::MdocSpec;
use spec_forms::{NoMemory, has_free};
use std::alloc::Global;

// The lesser of the rules 4 and 5 that is broken.
#[tactic(auto, unfolding(base_forms::specs::Rules::rule))]
pub(crate) fn content_rule(alloc: Global, spec: &MdocSpec) -> Result<Option<u8>, NoMemory>
    ensures rule { IfOk result (λ o. o ≡ content_rule (asked_of spec.now)) }
    ensures stored { IfOk result (λ o. o ≡ None → HoldStored (members_view spec.now.namespaces.entries)) }
{
    if !has_free(&spec.namespaces) {
        Ok(Some(4))
    } else if breaks_limit(alloc, spec)? {
        Ok(Some(5))
    } else {
        Ok(None)
    }
}

fn breaks_limit(alloc: Global, spec: &MdocSpec) -> Result<bool, NoMemory>
    ensures limit { IfOk result (λ b. b ≡ breaks_limit (asked_of spec.now)) }
    ensures stored { IfOk result (λ b. b ≡ false → HoldStored (members_view spec.now.namespaces.entries)) }
{
    if are_too_many(&spec.namespaces) || has_deep_element(alloc, &spec.namespaces)? {
        return Ok(true);
    }
    Ok(members_have_fraction(&spec.namespaces))
}
