// The lines of addresses, and texts in JSON.
ghost use Rattle.std.specs.Prelude.{◌≡◌, ◌++◌, IfOk, string_bytes};
ghost use Rattle.std.specs.List.{flat_map};
ghost use Rattle.serde_json.specs.Data.{string};
ghost use Rattle.serde_json.specs.View.{view};
ghost use Rattle.serde_json.specs.Written.{compact_text};
ghost use Rattle.option_texts.specs.Addresses.{step_data, address_data, address_text, address_line};

use crate::error::NoMemory;
use claim_tree::{Address, Step};
use serde_json::Value;
use std::alloc::Global;

// Adds the lines of the addresses.
pub(crate) fn add_addresses(
    alloc: Global,
    text: &mut String,
    addresses: &[Address],
) -> Result<(), NoMemory>
    ensures { IfOk result (λ _.
        string_bytes text.new ≡ string_bytes text.old ++ flat_map address_line addresses.now) }
{
    for address in addresses {
        add_address(alloc, text, address)?;
    }
    Ok(())
}

fn add_address(alloc: Global, text: &mut String, address: &Address) -> Result<(), NoMemory>
    ensures { IfOk result (λ _.
        string_bytes text.new ≡ string_bytes text.old ++ address_line address.now) }
{
    let json = address_json(alloc, address)?;
    write!(text, "    {json}\n")?;
    Ok(())
}

fn address_json(alloc: Global, address: &Address) -> Result<String, NoMemory>
    ensures { IfOk result (λ json. string_bytes json ≡ address_text address.now) }
{
    let list = address_value(alloc, address.steps())?;
    Ok(list.to_string(alloc)?)
}

fn address_value(alloc: Global, steps: &[Step]) -> Result<Value, NoMemory>
    ensures { IfOk result (λ list. view list ≡ address_data steps.now) }
{
    let mut elements = Vec::with_capacity(alloc, steps.len())?;
    for step in steps {
        elements.push(step_value(alloc, step)?)?;
    }
    Ok(Value::Array(elements))
}

fn step_value(alloc: Global, step: &Step) -> Result<Value, NoMemory>
    ensures { IfOk result (λ value. view value ≡ step_data step.now) }
{
    match step {
        Step::Name(name) => text_value(alloc, name.as_str()),
        Step::Place(place) => Ok(Value::from(*place)),
    }
}

fn text_value(alloc: Global, text: &str) -> Result<Value, NoMemory>
    ensures { IfOk result (λ value. view value ≡ string text.now) }
{
    Ok(Value::String(String::from_str(alloc, text)?))
}

// The text in JSON, in quotation marks.
pub(crate) fn text_json(alloc: Global, text: &str) -> Result<String, NoMemory>
    ensures { IfOk result (λ json. string_bytes json ≡ compact_text (string text.now)) }
{
    let value = text_value(alloc, text)?;
    Ok(value.to_string(alloc)?)
}
