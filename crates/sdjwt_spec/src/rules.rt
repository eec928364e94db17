// The rules about what the members of a spec ask.
ghost use Rattle.std.specs.Prelude.{◌≡◌, nat_lt, not, false, option_map, length};
ghost use Rattle.std.specs.Option.{option_map_or};
ghost use Rattle.std.specs.List.{list_any, list_all};
ghost use Rattle.serde_json.specs.View.{view, members_view};
ghost use Rattle.serde_json.specs.Data.{object as an_object, depth, members_depth};
ghost use Rattle.serde_json.specs.Written.{members_have_float};
ghost use Rattle.base_forms.specs.Texts.{is_among};
ghost use Rattle.claim_tree.specs.Tree.{member_names};
ghost use Rattle.claim_tree.specs.Plain.{plain_members};
ghost use Rattle.sdjwt_disclosures.specs.MemberNames.{plain_only};
ghost use Rattle.sdjwt_hiding.specs.Hiding.{is_free};
ghost use Rattle.sdjwt_issue.specs.code.Asking.{asked_of};
ghost use Rattle.sdjwt_spec.specs.Addresses.{leads_to_part};
ghost use Rattle.sdjwt_spec.specs.Rules.{has_refused_name, is_too_deep, breaks_limit, content_rule};

use crate::addresses::{addresses_differ, leads_to_part};
use claim_tree::Address;
use json_forms::has_float;
use sdjwt_issue::SdJwtSpec;
use serde_json::{Map, Value};
use spec_forms::{has_free, is_deeper, is_free, members_are_deeper};

// The most parts that are hidden.
const MOST_ADDRESSES: usize = 1_024;

// The least of the rules 2 to 5 that is broken.
#[tactic(auto, unfolding(base_forms::specs::Rules::rule))]
pub(crate) fn content_rule(spec: &SdJwtSpec) -> Option<u8>
    ensures { result ≡ content_rule (asked_of spec.now) }
{
    if !lead_to_parts(&spec.claims, &spec.hide) {
        Some(2)
    } else if !addresses_differ(&spec.hide) {
        Some(3)
    } else if has_refused_name(spec) {
        Some(4)
    } else if breaks_limit(spec) {
        Some(5)
    } else {
        None
    }
}

fn lead_to_parts(claims: &Map<String, Value>, hide: &[Address]) -> bool
    ensures { result ≡ list_all (leads_to_part (an_object (members_view claims.now.entries))) hide.now }
{
    for address in hide {
        if !leads_to_part(claims, address.steps()) {
            return false;
        }
    }
    true
}

// ---- names

fn has_refused_name(spec: &SdJwtSpec) -> bool
    ensures { result ≡ has_refused_name (asked_of spec.now) }
{
    !has_free(&spec.claims) || names_own(&spec.claims) || is_unfree(spec.holder.as_ref())
}

fn is_unfree(holder: Option<&Value>) -> bool
    ensures { result
        ≡ option_map_or (λ d. not (is_free d)) (option_map (λ v. view v.now) holder.entry) false }
{
    match holder {
        Some(jwk) => !is_free(jwk),
        None => false,
    }
}

// Whether a claim has the name of what the credential says of itself.
fn names_own(claims: &Map<String, Value>) -> bool
    ensures { result ≡ list_any (λ k. is_among k plain_only)
        (member_names (plain_members (members_view claims.now.entries))) }
{
    for (name, _) in claims {
        if is_own_name(name.as_str()) {
            return true;
        }
    }
    false
}

fn is_own_name(name: &str) -> bool
    ensures { result ≡ is_among name.now plain_only }
{
    "iss" == name
        || "nbf" == name
        || "exp" == name
        || "cnf" == name
        || "vct" == name
        || "status" == name
        || "_sd_alg" == name
}

// ---- limits

fn breaks_limit(spec: &SdJwtSpec) -> bool
    ensures { result ≡ breaks_limit (asked_of spec.now) }
{
    are_too_many(&spec.hide) || is_too_deep(spec) || has_fraction(&spec.claims)
}

fn are_too_many(hide: &[Address]) -> bool
    ensures { result ≡ nat_lt 1_024 (length hide.now) }
{
    hide.len() > MOST_ADDRESSES
}

fn is_too_deep(spec: &SdJwtSpec) -> bool
    ensures { result ≡ is_too_deep (asked_of spec.now) }
{
    members_are_deeper(&spec.claims, 63) || is_deep_key(spec.holder.as_ref())
}

fn is_deep_key(holder: Option<&Value>) -> bool
    ensures { result
        ≡ option_map_or (λ d. nat_lt 62 (depth d)) (option_map (λ v. view v.now) holder.entry) false }
{
    match holder {
        Some(jwk) => is_deeper(jwk, 62),
        None => false,
    }
}

// Whether a number in the object is no integer.
fn has_fraction(object: &Map<String, Value>) -> bool
    ensures { result ≡ members_have_float (members_view object.now.entries) }
{
    for (_, member) in object {
        if has_float(member) {
            return true;
        }
    }
    false
}
