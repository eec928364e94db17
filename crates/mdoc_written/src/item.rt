// Issuer-signed items.
ghost use Rattle.std.specs.Prelude.{◌≡◌, IfOk};
ghost use Rattle.serde_json.specs.View.{view};
ghost use Rattle.mdoc_written.specs.Containers.{embedded_bytes, map_bytes};
ghost use Rattle.mdoc_written.specs.Item.{item_bytes, item_entries};

use crate::element::{byte_string_bytes, element_bytes, number_bytes, text_bytes};
use crate::pairs::named_map;
use cbor_core::{NoMemory, Writer};
use serde_json::Value;
use std::alloc::Global;

/// The tag of an encoded item in a byte string (RFC 8949, section 3.4.5.1).
const EMBEDDED: u64 = 24;

/// The issuer-signed item of the element of this number, name and value, with its tag. Its `random` is the
/// number.
pub fn item_bytes(
    alloc: Global,
    number: u64,
    name: &str,
    value: &Value,
) -> Result<Vec<u8>, NoMemory>
    ensures { IfOk result (λ v. v.items ≡ item_bytes number name.now (view value.now)) }
{
    let map = item_map(alloc, number, name, value)?;
    embedded_bytes(alloc, &map)
}

// The map that an item embeds. Its keys stand in the bytewise order of their encodings.
fn item_map(alloc: Global, number: u64, name: &str, value: &Value) -> Result<Vec<u8>, NoMemory>
    ensures { IfOk result (λ v. v.items ≡ map_bytes (item_entries number name.now (view value.now))) }
{
    let random = byte_string_bytes(alloc, &(number as u128).to_be_bytes())?;
    let digest_id = number_bytes(alloc, number)?;
    let value = element_bytes(alloc, value)?;
    let identifier = text_bytes(alloc, name)?;
    named_map(
        alloc,
        &[
            ("random", &random),
            ("digestID", &digest_id),
            ("elementValue", &value),
            ("elementIdentifier", &identifier),
        ],
    )
}

/// An encoded item, embedded as a byte string.
pub fn embedded_bytes(alloc: Global, item: &[u8]) -> Result<Vec<u8>, NoMemory>
    ensures { IfOk result (λ v. v.items ≡ embedded_bytes item.now) }
{
    let mut writer = Writer::new(alloc);
    writer.tag(EMBEDDED)?;
    writer.bytes(item)?;
    Ok(writer.finish())
}
