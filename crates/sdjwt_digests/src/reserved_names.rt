// The reserved names `_sd` and `...`, under which digests stand.
ghost use Rattle.std.specs.Prelude.{◌≡◌, map, Some, None};
ghost use Rattle.std.specs.List.{list_any, list_all};
ghost use Rattle.serde_json.specs.View.{view, items_view, members_view};
ghost use Rattle.sdjwt_digests.specs.ReservedNames.{is_list_of_texts, is_sound, are_items_sound};
ghost use Rattle.sdjwt_digests.specs.ReservedNames.{are_members_sound};
ghost use Rattle.sdjwt_digests.specs.ReservedNames.{is_reserved_name, has_reserved_name};
ghost use Rattle.sdjwt_digests.specs.ReservedNames.{reserved_names_rule};
ghost use Rattle.sdjwt_digests.specs.Disclosure.{said};

use crate::digest_sites::placeholder;
use crate::disclosure::Disclosure;
use json_forms::are_texts;
use serde_json::{Map, Value};

/// The first of the rules 7 and 8 that is broken, on `_sd` and `...`.
#[tactic(auto, unfolding(base_forms::specs::Rules::rule, crate::specs::ReservedNames::reserved_names_rule))]
pub fn reserved_names_rule(payload: &Value, disclosures: &[Disclosure]) -> Option<u8>
    ensures { result ≡ reserved_names_rule (view payload.now) (map said disclosures.now) }
{
    if any_has_reserved_name(disclosures) {
        Some(7)
    } else if !(is_sound(payload) && are_values_sound(disclosures)) {
        Some(8)
    } else {
        None
    }
}

fn any_has_reserved_name(disclosures: &[Disclosure]) -> bool
    ensures { result ≡ list_any has_reserved_name (map said disclosures.now) }
{
    disclosures
        .iter()
        .any(|disclosure| has_reserved_name(disclosure))
}

fn has_reserved_name(disclosure: &Disclosure) -> bool
    ensures { result ≡ has_reserved_name (said disclosure.now) }
{
    match disclosure.name() {
        Some(name) => is_reserved_name(name),
        None => false,
    }
}

fn is_reserved_name(name: &str) -> bool
    ensures { result ≡ is_reserved_name name.now }
{
    name == "_sd" || name == "..."
}

fn are_values_sound(disclosures: &[Disclosure]) -> bool
    ensures { result ≡ list_all (λ l. is_sound l.value) (map said disclosures.now) }
{
    disclosures
        .iter()
        .all(|disclosure| is_sound(disclosure.value()))
}

fn is_list_of_texts(value: &Value) -> bool
    ensures { result ≡ is_list_of_texts (view value.now) }
{
    match value.as_array() {
        Some(list) => are_texts(list),
        None => false,
    }
}

// Whether each `_sd` is a list of strings and each `...` the one member, a string, of a list's element.
#[cycle(sound)]
fn is_sound(value: &Value) -> bool
    ensures { result ≡ is_sound (view value.now) }
{
    match value {
        Value::Array(list) => are_items_sound(list),
        Value::Object(object) => are_members_sound(object),
        _ => true,
    }
}

#[cycle(sound)]
fn are_items_sound(list: &Vec<Value>) -> bool
    ensures { result ≡ are_items_sound (items_view list.now.items) }
{
    for item in list {
        if placeholder(item).is_none() && !is_sound(item) {
            return false;
        }
    }
    true
}

#[cycle(sound)]
fn are_members_sound(object: &Map<String, Value>) -> bool
    ensures { result ≡ are_members_sound (members_view object.now.entries) }
{
    for (name, value) in object {
        if name.as_str() == "_sd" {
            if !is_list_of_texts(value) {
                return false;
            }
        } else if name.as_str() == "..." || !is_sound(value) {
            return false;
        }
    }
    true
}
