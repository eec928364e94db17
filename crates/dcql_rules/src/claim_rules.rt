// The rules of the claims of a credential query.
ghost use Rattle.std.specs.Prelude.{◌≡◌, map, codes, nat_lt, length};
ghost use Rattle.serde_json.specs.View.{view};
ghost use Rattle.serde_json.specs.Find.{get};
ghost use Rattle.json_forms.specs.Look.{is_wrong};
ghost use Rattle.dcql_rules.specs.Rules.{is_two_strings, are_right_values, claim_rule, least_claim_rule};
ghost use Rattle.dcql_rules.specs.Rules.{is_object_list, claims_rule};

use crate::credential_rules::has_format;
use crate::ids::{are_right_ids, has_equal_ids};
use base_forms::lesser;
use claim_path::{path_rule, values_rule};
use json_forms::{are_objects, are_texts, elements, elements_at};
use serde_json::Value;

// The most claims of a credential query.
const MOST_CLAIMS: usize = 64;

// The least rule that the claims of a credential query break.
#[tactic(auto, unfolding(base_forms::specs::Rules::rule))]
pub(crate) fn claims_rule(query: &Value) -> Option<u8>
    ensures { result ≡ claims_rule (view query.now) }
{
    let claims = elements_at(query, "claims");
    if has_wrong_claims(query) {
        return Some(10);
    }
    if are_too_many_claims(claims) {
        return Some(11);
    }
    if !are_right_ids(claims) {
        return Some(12);
    }
    if has_equal_ids(claims) {
        return Some(13);
    }
    least_claim_rule(claims, has_format(query, "mso_mdoc"))
}

fn are_too_many_claims(claims: &[Value]) -> bool
    ensures { result ≡ nat_lt 64 (length claims.now) }
{
    claims.len() > MOST_CLAIMS
}

fn has_wrong_claims(query: &Value) -> bool
    ensures { result ≡ is_wrong is_object_list (get (codes "claims") (view query.now)) }
{
    match query.get("claims") {
        Some(claims) => {
            let claims = elements(claims);
            claims.is_empty() || !are_objects(claims)
        }
        None => false,
    }
}

fn least_claim_rule(claims: &[Value], document: bool) -> Option<u8>
    ensures { result ≡ least_claim_rule document (map view claims.now) }
{
    let mut least = None;
    for claim in claims {
        least = lesser(least, claim_rule(claim, document));
    }
    least
}

// The least rule that one claim breaks, of a mobile document or not.
#[tactic(auto, unfolding(base_forms::specs::Rules::rule))]
fn claim_rule(claim: &Value, document: bool) -> Option<u8>
    ensures { result ≡ claim_rule document (view claim.now) }
{
    let Some(path) = claim.get("path") else {
        return Some(14);
    };
    if path_rule(path).is_some() {
        return Some(14);
    }
    if document && !is_two_strings(path) {
        return Some(15);
    }
    if has_wrong_values(claim) {
        return Some(16);
    }
    None
}

fn is_two_strings(path: &Value) -> bool
    ensures { result ≡ is_two_strings (view path.now) }
{
    let steps = elements(path);
    steps.len() == 2 && are_texts(steps)
}

fn has_wrong_values(claim: &Value) -> bool
    ensures { result ≡ is_wrong are_right_values (get (codes "values") (view claim.now)) }
{
    match claim.get("values") {
        Some(values) => values_rule(values).is_some(),
        None => false,
    }
}
