// Claim sets from JSON.
ghost use Rattle.std.specs.Prelude.{◌≡◌, ◌<◌, IfOk, map, length};
ghost use Rattle.std.specs.List.{range_with_len};
ghost use Rattle.serde_json.specs.View.{view};
ghost use Rattle.credential_query.specs.Meaning.{claim_from, claim_place, claim_places, given_sets, sets_of};

use crate::error::NoMemory;
use dcql_rules::is_named;
use json_forms::{elements, elements_at};
use serde_json::Value;
use std::alloc::Global;

// The claim sets of a credential query, each as the places of its claims.
pub(crate) fn read_sets(alloc: Global, query: &Value) -> Result<Vec<Vec<usize>>, NoMemory>
    ensures sets { IfOk result (λ v. map (λ s. s.items) v.items ≡ sets_of (view query.now)) }
    ensures some { IfOk result (λ v. 0 < length v.items) }
{
    let claims = elements_at(query, "claims");
    let sets = elements_at(query, "claim_sets");
    if sets.is_empty() {
        Ok(Vec::from_array(alloc, [all_places(alloc, claims.len())?])?)
    } else {
        read_given_sets(alloc, claims, sets)
    }
}

fn all_places(alloc: Global, count: usize) -> Result<Vec<usize>, NoMemory>
    ensures { IfOk result (λ v. v.items ≡ range_with_len 0 count) }
{
    let mut places = Vec::new(alloc);
    for place in 0..count {
        places.push(place)?;
    }
    Ok(places)
}

fn read_given_sets(
    alloc: Global,
    claims: &[Value],
    sets: &[Value],
) -> Result<Vec<Vec<usize>>, NoMemory>
    ensures { IfOk result (λ v. map (λ s. s.items) v.items
        ≡ given_sets (map view claims.now) (map view sets.now)) }
{
    let mut given = Vec::new(alloc);
    for set in sets {
        given.push(read_places(alloc, claims, elements(set))?)?;
    }
    Ok(given)
}

fn read_places(alloc: Global, claims: &[Value], names: &[Value]) -> Result<Vec<usize>, NoMemory>
    ensures { IfOk result (λ v. v.items ≡ claim_places (map view claims.now) (map view names.now)) }
{
    let mut places = Vec::new(alloc);
    for name in names {
        if let Some(place) = claim_place(claims, name) {
            places.push(place)?;
        }
    }
    Ok(places)
}

fn claim_place(claims: &[Value], name: &Value) -> Option<usize>
    ensures { result ≡ claim_place (map view claims.now) (view name.now) }
{
    match name.as_str() {
        Some(id) => place_named(claims, id),
        None => None,
    }
}

fn place_named(claims: &[Value], id: &str) -> Option<usize>
    ensures { result ≡ claim_from 0 id.now (map view claims.now) }
{
    for place in 0..claims.len() {
        if is_named(&claims[place], id) {
            return Some(place);
        }
    }
    None
}
