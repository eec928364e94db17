// Paths and values from JSON.
ghost use Rattle.std.specs.Prelude.{◌≡◌, Ok, None, IfOk, IfErr, map, filter_map, is_some, option_map, nat_lt};
ghost use Rattle.std.specs.Prelude.{length};
ghost use Rattle.serde_json.specs.View.{view};
ghost use Rattle.json_forms.specs.Look.{elements_of};
ghost use Rattle.claim_path.specs.Read.{step_of, are_steps, path_rule, steps_of, path_of};
ghost use Rattle.claim_path.specs.Read.{scalar_of, are_scalars, values_rule, scalars_of, values_of};
ghost use Rattle.claim_path.specs.Refusal.{IsRefusal};

use crate::error::{Error, NoMemory};
use crate::path::{Path, PathStep, Scalar, Values};
use claim_tree::Name;
use json_forms::elements;
use serde_json::Value;
use std::alloc::Global;

// The most steps of a path.
const MOST_STEPS: usize = 16;

// The most values of a claim.
const MOST_VALUES: usize = 32;

impl Path {
    /// The path that a JSON value is: a list of 1 to 16 steps, each a string, null or an integer from
    /// 0 to 2^64 - 1.
    ///
    /// # Errors
    ///
    /// The first broken rule, as [`path_rule`] gives it, or out of memory.
    pub fn from_json(alloc: Global, value: &Value) -> Result<Path, Error>
        ensures ok { IfOk result (λ p. path_of (view value.now) ≡ Ok p) }
        ensures refused { IfErr result (λ e. IsRefusal (path_of (view value.now)) e) }
    {
        if let Some(rule) = path_rule(value) {
            return Err(Error::Refused(rule));
        }
        Ok(Path::from_valid(alloc, value)?)
    }

    /// The path that a JSON value is which breaks none of the rules of [`path_rule`].
    pub fn from_valid(alloc: Global, value: &Value) -> Result<Path, NoMemory>
        requires { path_rule (view value.now) ≡ None }
        ensures { IfOk result (λ p. p ≡ steps_of (view value.now)) }
    {
        let steps = read_steps(alloc, elements(value))?;
        Ok(Path { steps })
    }
}

impl Values {
    /// The values that a JSON value is: a list of 1 to 32 strings, integers from -2^63 to 2^64 - 1 and
    /// booleans.
    ///
    /// # Errors
    ///
    /// The broken rule, as [`values_rule`] gives it, or out of memory.
    pub fn from_json(alloc: Global, value: &Value) -> Result<Values, Error>
        ensures ok { IfOk result (λ v. values_of (view value.now) ≡ Ok v) }
        ensures refused { IfErr result (λ e. IsRefusal (values_of (view value.now)) e) }
    {
        if let Some(rule) = values_rule(value) {
            return Err(Error::Refused(rule));
        }
        Ok(Values::from_valid(alloc, value)?)
    }

    /// The values that a JSON value is which does not break the rule of [`values_rule`].
    pub fn from_valid(alloc: Global, value: &Value) -> Result<Values, NoMemory>
        requires { values_rule (view value.now) ≡ None }
        ensures { IfOk result (λ v. v ≡ scalars_of (view value.now)) }
    {
        let members = read_scalars(alloc, elements(value))?;
        Ok(Values { members })
    }
}

/// The first rule that a path in JSON breaks: 1 no list, 2 empty, 3 a step that is no string, null or
/// integer from 0 to 2^64 - 1, 4 more than 16 steps. It takes no memory.
#[tactic(auto, unfolding(base_forms::specs::Rules::rule))]
pub fn path_rule(value: &Value) -> Option<u8>
    ensures { result ≡ path_rule (view value.now) }
{
    let steps = elements(value);
    if !value.is_array() {
        Some(1)
    } else if steps.is_empty() {
        Some(2)
    } else if !are_steps(steps) {
        Some(3)
    } else if are_too_many_steps(steps) {
        Some(4)
    } else {
        None
    }
}

/// The rule that the values of a claim in JSON break: 1 no list of 1 to 32 strings, integers from
/// -2^63 to 2^64 - 1 and booleans. It takes no memory.
#[tactic(auto, unfolding(base_forms::specs::Rules::rule))]
pub fn values_rule(value: &Value) -> Option<u8>
    ensures { result ≡ values_rule (view value.now) }
{
    let members = elements(value);
    if members.is_empty() {
        Some(1)
    } else if !are_scalars(members) {
        Some(1)
    } else if are_too_many_values(members) {
        Some(1)
    } else {
        None
    }
}

fn are_too_many_steps(steps: &[Value]) -> bool
    ensures { result ≡ nat_lt 16 (length steps.now) }
{
    steps.len() > MOST_STEPS
}

fn are_too_many_values(values: &[Value]) -> bool
    ensures { result ≡ nat_lt 32 (length values.now) }
{
    values.len() > MOST_VALUES
}

fn are_steps(values: &[Value]) -> bool
    ensures { result ≡ are_steps (map view values.now) }
{
    values.iter().all(|value| is_step(value))
}

fn are_scalars(values: &[Value]) -> bool
    ensures { result ≡ are_scalars (map view values.now) }
{
    values.iter().all(|value| is_scalar(value))
}

fn is_step(value: &Value) -> bool
    ensures { result ≡ is_some (step_of (view value.now)) }
{
    match value {
        Value::Null | Value::String(_) => true,
        Value::Number(number) => number.as_u64().is_some(),
        _ => false,
    }
}

fn is_scalar(value: &Value) -> bool
    ensures { result ≡ is_some (scalar_of (view value.now)) }
{
    match value {
        Value::Bool(_) | Value::String(_) => true,
        Value::Number(number) => number.as_i128().is_some(),
        _ => false,
    }
}

fn read_steps(alloc: Global, values: &[Value]) -> Result<Vec<PathStep>, NoMemory>
    ensures { IfOk result (λ v. v.items ≡ filter_map step_of (map view values.now)) }
{
    let mut steps = Vec::new(alloc);
    for value in values {
        if let Some(step) = read_step(alloc, value)? {
            steps.push(step)?;
        }
    }
    Ok(steps)
}

fn read_step(alloc: Global, value: &Value) -> Result<Option<PathStep>, NoMemory>
    ensures { IfOk result (λ s. s ≡ step_of (view value.now)) }
{
    match value {
        Value::Null => Ok(Some(PathStep::Every)),
        Value::String(string) => Ok(Some(PathStep::Member(Name::new(alloc, string.as_str())?))),
        Value::Number(number) => match number.as_u64() {
            Some(place) => Ok(Some(PathStep::Place(place))),
            None => Ok(None),
        },
        _ => Ok(None),
    }
}

fn read_scalars(alloc: Global, values: &[Value]) -> Result<Vec<Scalar>, NoMemory>
    ensures { IfOk result (λ v. v.items ≡ filter_map scalar_of (map view values.now)) }
{
    let mut scalars = Vec::new(alloc);
    for value in values {
        if let Some(scalar) = read_scalar(alloc, value)? {
            scalars.push(scalar)?;
        }
    }
    Ok(scalars)
}

fn read_scalar(alloc: Global, value: &Value) -> Result<Option<Scalar>, NoMemory>
    ensures { IfOk result (λ s. s ≡ scalar_of (view value.now)) }
{
    match value {
        Value::Bool(boolean) => Ok(Some(Scalar::Truth(*boolean))),
        Value::String(string) => Ok(Some(Scalar::Text(Name::new(alloc, string.as_str())?))),
        Value::Number(number) => match number.as_i128() {
            Some(integer) => Ok(Some(Scalar::Whole(integer))),
            None => Ok(None),
        },
        _ => Ok(None),
    }
}
