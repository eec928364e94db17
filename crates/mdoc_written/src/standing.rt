// What an object stands for.
ghost use Rattle.std.specs.Prelude.{◌≡◌, IfOk};
ghost use Rattle.serde_json.specs.View.{members_view};
ghost use Rattle.base_forms.specs.Base16.{hex_read};
ghost use Rattle.mdoc_written.specs.Element.{stands_for, stands_by, bytes_or_itself};
ghost use Rattle.mdoc_written.specs.code.Standing.{standing_of, stands_as};

use base_forms::{Error, from_hex};
use cbor_core::NoMemory;
use serde_json::{Map, Value};
use std::alloc::Global;

/// What an object of JSON stands for in an element's value.
#[derive(Drop)]
pub enum Standing<'a> {
    /// `{"$bytes":HEX}`: the byte string of this hexadecimal.
    ByteString(Vec<u8>),
    /// `{"$date":TEXT}`: this text as a date.
    FullDate(&'a str),
    /// The object itself.
    Itself,
}

/// What an object stands for.
pub fn read_standing(alloc: Global, object: &Map<String, Value>) -> Result<Standing<'_>, NoMemory>
    ensures { IfOk result (λ s. standing_of s ≡ stands_for (members_view object.now.entries)) }
{
    match only_text(object) {
        Some((name, text)) => standing_by(alloc, name, text),
        None => Ok(Standing::Itself),
    }
}

// The name and the text of an object that has nothing else.
fn only_text(object: &Map<String, Value>) -> Option<(&str, &str)>
    ensures { stands_as result ≡ stands_for (members_view object.now.entries) }
{
    if object.len() != 1 {
        return None;
    }
    match object.iter().next() {
        Some((name, Value::String(text))) => Some((name.as_str(), text.as_str())),
        _ => None,
    }
}

// What the object of this one text stands for.
fn standing_by<'a>(alloc: Global, name: &str, text: &'a str) -> Result<Standing<'a>, NoMemory>
    ensures { IfOk result (λ s. standing_of s ≡ stands_by name.now text.now) }
{
    match name {
        "$bytes" => bytes_or_itself(alloc, text),
        "$date" => Ok(Standing::FullDate(text)),
        _ => Ok(Standing::Itself),
    }
}

fn bytes_or_itself<'a>(alloc: Global, text: &str) -> Result<Standing<'a>, NoMemory>
    ensures { IfOk result (λ s. standing_of s ≡ bytes_or_itself (hex_read text.now)) }
{
    match from_hex(alloc, text) {
        Ok(bytes) => Ok(Standing::ByteString(bytes)),
        Err(Error::Refused(_)) => Ok(Standing::Itself),
        Err(Error::NoMemory) => Err(NoMemory),
    }
}
