// The encoding of an element's value.
ghost use Rattle.std.specs.Prelude.{◌≡◌, pos, IfOk};
ghost use Rattle.serde_json.specs.View.{view, items_view, members_view, number_view};
ghost use Rattle.cbor_core.specs.Writing.{null_bytes, truth_bytes, whole_bytes, text_bytes};
ghost use Rattle.cbor_core.specs.Writing.{byte_string_bytes};
ghost use Rattle.mdoc_written.specs.Containers.{list_bytes, sorted_map_bytes};
ghost use Rattle.mdoc_written.specs.Element.{element_bytes, number_bytes, full_date_bytes, object_bytes};
ghost use Rattle.mdoc_written.specs.Element.{stands_for, encodings, named_encodings};

use crate::standing::{Standing, read_standing};
use cbor_core::{NoMemory, Writer};
use serde_json::{Map, Number, Value};
use std::alloc::Global;

/// The tag of a `full-date` (RFC 8943).
const FULL_DATE: u64 = 1004;

/// The deterministic encoding of an element's value. A number that is no integer has no bytes.
#[cycle(element)]
pub fn element_bytes(alloc: Global, value: &Value) -> Result<Vec<u8>, NoMemory>
    ensures { IfOk result (λ v. v.items ≡ element_bytes (view value.now)) }
{
    match value {
        Value::Null => null_bytes(alloc),
        Value::Bool(truth) => truth_bytes(alloc, *truth),
        Value::Number(number) => integer_bytes(alloc, number),
        Value::String(text) => text_bytes(alloc, text),
        Value::Array(list) => list_bytes(alloc, list),
        Value::Object(object) => object_bytes(alloc, object),
    }
}

#[cycle(element)]
fn list_bytes(alloc: Global, list: &Vec<Value>) -> Result<Vec<u8>, NoMemory>
    ensures { IfOk result (λ v. v.items ≡ list_bytes (encodings (items_view list.now.items))) }
{
    let mut writer = Writer::new(alloc);
    writer.list(list.len() as u64)?;
    for item in list {
        let bytes = element_bytes(alloc, item)?;
        writer.raw(&bytes)?;
    }
    Ok(writer.finish())
}

#[cycle(element)]
fn object_bytes(alloc: Global, object: &Map<String, Value>) -> Result<Vec<u8>, NoMemory>
    ensures { IfOk result (λ v. v.items ≡ object_bytes (stands_for (members_view object.now.entries))
        (named_encodings (members_view object.now.entries))) }
{
    match read_standing(alloc, object)? {
        Standing::ByteString(bytes) => byte_string_bytes(alloc, &bytes),
        Standing::FullDate(text) => full_date_bytes(alloc, text),
        Standing::Itself => map_bytes(alloc, object),
    }
}

#[cycle(element)]
fn map_bytes(alloc: Global, object: &Map<String, Value>) -> Result<Vec<u8>, NoMemory>
    ensures { IfOk result (λ v. v.items ≡ sorted_map_bytes
        (named_encodings (members_view object.now.entries))) }
{
    let mut pairs = Vec::with_capacity(alloc, object.len())?;
    for (name, member) in object {
        let key = text_bytes(alloc, name)?;
        let value = element_bytes(alloc, member)?;
        pairs.push((key, value))?;
    }
    let mut writer = Writer::new(alloc);
    writer.sorted_map(&pairs)?;
    Ok(writer.finish())
}

fn null_bytes(alloc: Global) -> Result<Vec<u8>, NoMemory>
    ensures { IfOk result (λ v. v.items ≡ null_bytes) }
{
    let mut writer = Writer::new(alloc);
    writer.null()?;
    Ok(writer.finish())
}

fn truth_bytes(alloc: Global, truth: bool) -> Result<Vec<u8>, NoMemory>
    ensures { IfOk result (λ v. v.items ≡ truth_bytes truth) }
{
    let mut writer = Writer::new(alloc);
    writer.truth(truth)?;
    Ok(writer.finish())
}

fn integer_bytes(alloc: Global, number: &Number) -> Result<Vec<u8>, NoMemory>
    ensures { IfOk result (λ v. v.items ≡ number_bytes (number_view number.now)) }
{
    let mut writer = Writer::new(alloc);
    match number.as_u64() {
        Some(n) => writer.whole(n as i128)?,
        None => match number.as_i64() {
            Some(n) => writer.whole(n as i128)?,
            None => {}
        },
    }
    Ok(writer.finish())
}

/// The encoding of a number.
pub fn number_bytes(alloc: Global, number: u64) -> Result<Vec<u8>, NoMemory>
    ensures { IfOk result (λ v. v.items ≡ whole_bytes (pos number)) }
{
    let mut writer = Writer::new(alloc);
    writer.whole(number as i128)?;
    Ok(writer.finish())
}

/// The encoding of a text.
pub fn text_bytes(alloc: Global, text: &str) -> Result<Vec<u8>, NoMemory>
    ensures { IfOk result (λ v. v.items ≡ text_bytes text.now) }
{
    let mut writer = Writer::new(alloc);
    writer.text(text)?;
    Ok(writer.finish())
}

/// The encoding of a byte string.
pub fn byte_string_bytes(alloc: Global, bytes: &[u8]) -> Result<Vec<u8>, NoMemory>
    ensures { IfOk result (λ v. v.items ≡ byte_string_bytes bytes.now) }
{
    let mut writer = Writer::new(alloc);
    writer.bytes(bytes)?;
    Ok(writer.finish())
}

// The encoding of a date.
fn full_date_bytes(alloc: Global, text: &str) -> Result<Vec<u8>, NoMemory>
    ensures { IfOk result (λ v. v.items ≡ full_date_bytes text.now) }
{
    let mut writer = Writer::new(alloc);
    writer.tag(FULL_DATE)?;
    writer.text(text)?;
    Ok(writer.finish())
}
