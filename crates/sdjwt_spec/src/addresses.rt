// The addresses of the parts to hide.
ghost use Rattle.std.specs.Prelude.{◌≡◌, IfOk, map, option_map, is_some};
ghost use Rattle.serde_json.specs.View.{view, members_view};
ghost use Rattle.serde_json.specs.Data.{object as an_object};
ghost use Rattle.sdjwt_spec.specs.Addresses.{all_some, step_of, address_of, addresses_of, part_of, part_at};
ghost use Rattle.sdjwt_spec.specs.Addresses.{leads_to_part, addresses_differ};

use claim_tree::{Address, Name, Step};
use json_forms::elements;
use serde_json::{Map, Value};
use spec_forms::{NoMemory, member_named};
use std::alloc::Global;

// ---- in JSON

// The addresses that a list of lists of steps gives.
pub(crate) fn read_addresses(alloc: Global, value: &Value) -> Result<Option<Vec<Address>>, NoMemory>
    ensures { IfOk result (λ o. option_map (λ v. v.items) o ≡ addresses_of (view value.now)) }
{
    if value.is_array() {
        read_each_address(alloc, elements(value))
    } else {
        Ok(None)
    }
}

#[tactic(auto, using(crate::proofs::AllSome::one_more))]
fn read_each_address(alloc: Global, values: &[Value]) -> Result<Option<Vec<Address>>, NoMemory>
    ensures { IfOk result (λ o. option_map (λ v. v.items) o
        ≡ all_some (map address_of (map view values.now))) }
{
    let mut addresses = Vec::new(alloc);
    for value in values {
        match read_address(alloc, value)? {
            Some(address) => addresses.push(address)?,
            None => return Ok(None),
        }
    }
    Ok(Some(addresses))
}

fn read_address(alloc: Global, value: &Value) -> Result<Option<Address>, NoMemory>
    ensures { IfOk result (λ o. o ≡ address_of (view value.now)) }
{
    if value.is_array() {
        read_each_step(alloc, elements(value))
    } else {
        Ok(None)
    }
}

#[tactic(auto, using(crate::proofs::AllSome::one_more))]
fn read_each_step(alloc: Global, values: &[Value]) -> Result<Option<Address>, NoMemory>
    ensures { IfOk result (λ o. o ≡ all_some (map step_of (map view values.now))) }
{
    let mut address = Address::root(alloc);
    for value in values {
        match read_step(alloc, value)? {
            Some(step) => address.push(step)?,
            None => return Ok(None),
        }
    }
    Ok(Some(address))
}

// A string names a member, and an integer from 0 is the place of an element.
fn read_step(alloc: Global, value: &Value) -> Result<Option<Step>, NoMemory>
    ensures { IfOk result (λ o. o ≡ step_of (view value.now)) }
{
    if let Some(name) = value.as_str() {
        return Ok(Some(Step::Name(Name::new(alloc, name)?)));
    }
    match value.as_u64() {
        Some(place) => Ok(Some(Step::Place(place))),
        None => Ok(None),
    }
}

// ---- what they lead to

// Whether the address has steps, and they lead to a part of an object.
pub(crate) fn leads_to_part(object: &Map<String, Value>, address: &[Step]) -> bool
    ensures { result ≡ leads_to_part (an_object (members_view object.now.entries)) address.now }
{
    let Some((first, rest)) = address.split_first() else {
        return false;
    };
    let Step::Name(name) = first else {
        return false;
    };
    match member_named(object, name.as_str()) {
        Some(member) => has_part(member, rest),
        None => false,
    }
}

fn has_part(value: &Value, address: &[Step]) -> bool
    ensures { result ≡ is_some (part_at address.now (view value.now)) }
{
    let Some((first, rest)) = address.split_first() else {
        return true;
    };
    match part_of(value, first) {
        Some(part) => has_part(part, rest),
        None => false,
    }
}

fn part_of<'v>(value: &'v Value, step: &Step) -> Option<&'v Value>
    ensures { option_map (λ v. view v.now) result ≡ part_of step.now (view value.now) }
{
    match step {
        Step::Name(name) => value.get(name.as_str()),
        Step::Place(place) => value.get(*place as usize),
    }
}

// Whether no two addresses are equal.
pub(crate) fn addresses_differ(addresses: &[Address]) -> bool
    ensures { result ≡ addresses_differ addresses.now }
{
    for place in 0..addresses.len() {
        let later = &addresses[place + 1..];
        if later.contains(&addresses[place]) {
            return false;
        }
    }
    true
}
