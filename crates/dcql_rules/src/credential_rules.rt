// The rules of a credential query.
ghost use Rattle.std.specs.Prelude.{◌≡◌, map, codes, nat_lt, length};
ghost use Rattle.serde_json.specs.View.{view};
ghost use Rattle.serde_json.specs.Find.{get};
ghost use Rattle.json_forms.specs.Look.{is_wrong};
ghost use Rattle.dcql_rules.specs.Rules.{has_format, is_wrong_kind, is_meta, header_rule, is_set_list};
ghost use Rattle.dcql_rules.specs.Rules.{sets_rule, credential_rule};

use crate::claim_rules::claims_rule;
use crate::flags::is_no_boolean;
use crate::ids::{all_have_ids, knows_all_lists};
use json_forms::{are_text_lists, elements, elements_at, is_text_list, text_at};
use serde_json::Value;

// The most claim sets of a credential query.
const MOST_CLAIM_SETS: usize = 32;

// The least rule that a credential query breaks.
pub(crate) fn credential_rule(query: &Value) -> Option<u8>
    ensures { result ≡ credential_rule (view query.now) }
{
    if let Some(rule) = header_rule(query) {
        return Some(rule);
    }
    if let Some(rule) = claims_rule(query) {
        return Some(rule);
    }
    sets_rule(query)
}

// The least rule that it breaks in all but its claims and claim sets.
#[tactic(auto, unfolding(base_forms::specs::Rules::rule))]
fn header_rule(query: &Value) -> Option<u8>
    ensures { result ≡ header_rule (view query.now) }
{
    if text_at(query, "format").is_none() {
        return Some(5);
    }
    if is_no_boolean(query.get("multiple")) {
        return Some(6);
    }
    if is_no_boolean(query.get("require_cryptographic_holder_binding")) {
        return Some(7);
    }
    if query.get("trusted_authorities").is_some() {
        return Some(8);
    }
    if has_wrong_meta(query) {
        return Some(9);
    }
    None
}

fn has_wrong_meta(query: &Value) -> bool
    ensures { result ≡ is_wrong (is_meta (view query.now)) (get (codes "meta") (view query.now)) }
{
    match query.get("meta") {
        Some(meta) => !meta.is_object() || has_wrong_kind(query, meta),
        None => false,
    }
}

// Whether the member of `meta` that names types, by the format, is there and of another form.
fn has_wrong_kind(query: &Value, meta: &Value) -> bool
    ensures { result ≡ is_wrong_kind (view query.now) (view meta.now) }
{
    if has_format(query, "dc+sd-jwt") {
        match meta.get("vct_values") {
            Some(kinds) => !is_text_list(kinds),
            None => false,
        }
    } else if has_format(query, "mso_mdoc") {
        match meta.get("doctype_value") {
            Some(kind) => !kind.is_string(),
            None => false,
        }
    } else {
        false
    }
}

/// Whether the `format` of a credential query is this text.
pub fn has_format(query: &Value, name: &str) -> bool
    ensures { result ≡ has_format name.now (view query.now) }
{
    match text_at(query, "format") {
        Some(format) => name == format,
        None => false,
    }
}

// The least rule that its claim sets break.
#[tactic(auto, unfolding(base_forms::specs::Rules::rule))]
fn sets_rule(query: &Value) -> Option<u8>
    ensures { result ≡ sets_rule (view query.now) }
{
    let claims = elements_at(query, "claims");
    let sets = elements_at(query, "claim_sets");
    if has_wrong_sets(query) {
        return Some(17);
    }
    if are_too_many_sets(sets) {
        return Some(18);
    }
    if query.get("claim_sets").is_some() && !all_have_ids(claims) {
        return Some(19);
    }
    if !knows_all_lists(claims, sets) {
        return Some(20);
    }
    None
}

fn are_too_many_sets(sets: &[Value]) -> bool
    ensures { result ≡ nat_lt 32 (length sets.now) }
{
    sets.len() > MOST_CLAIM_SETS
}

fn has_wrong_sets(query: &Value) -> bool
    ensures { result ≡ is_wrong (is_set_list (view query.now)) (get (codes "claim_sets") (view query.now)) }
{
    match query.get("claim_sets") {
        Some(sets) => {
            let sets = elements(sets);
            query.get("claims").is_none() || sets.is_empty() || !are_text_lists(sets)
        }
        None => false,
    }
}
