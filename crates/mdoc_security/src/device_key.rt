// The device key, which a document is bound to.
ghost use Rattle.std.specs.Prelude.{◌≡◌, [], IfOk, option_map, string_bytes};
ghost use Rattle.cbor_core.specs.Seen.{span_of};
ghost use Rattle.cbor_core.specs.Views.{kind_of, entries_of};
ghost use Rattle.mdoc_security.specs.MobileSecurityObject.{has_wrong_key};
ghost use Rattle.mdoc_security.specs.DeviceKey.{device_key_in, is_label, is_parameter, is_labelled, is_key};
ghost use Rattle.mdoc_security.specs.DeviceKey.{written, put_written, key_bytes, key_name, holder_of};
ghost use Rattle.mdoc_security.specs.code.Pairs.{owned_pairs};

use crate::error::NoMemory;
use base_forms::to_hex;
use cbor_core::{Item, Kind, Writer};
use claim_tree::KeyName;
use mdoc_items::is_map;
use std::alloc::Global;
use std::collections::BTreeMap;

/// The name of the device key, if there is one: `cose:` and the hexadecimal of its deterministic encoding.
pub fn holder_of(alloc: Global, map: Item) -> Result<Option<KeyName>, NoMemory>
    ensures { IfOk result (λ o. o ≡ holder_of (entries_of (span_of map.entry))) }
{
    match device_key_in(map) {
        Some(key) => Ok(Some(key_name(alloc, key)?)),
        None => Ok(None),
    }
}

/// Whether there is no device key, or it is no map from integers or texts to integers, texts, byte strings or
/// booleans.
pub fn has_wrong_key(map: Item) -> bool
    ensures { result ≡ has_wrong_key (entries_of (span_of map.entry)) }
{
    match device_key_in(map) {
        Some(key) => !is_key(key),
        None => true,
    }
}

fn device_key_in<'t>(map: Item<'t>) -> Option<Item<'t>>
    ensures { option_map (λ i. span_of i) result ≡ device_key_in (entries_of (span_of map.entry)) }
{
    map.find("deviceKeyInfo")?.find("deviceKey")
}

/// Whether an item is a COSE key that a document may be bound to: a map from integers or texts to integers,
/// texts, byte strings or booleans.
pub fn is_key(item: Item) -> bool
    ensures { result ≡ is_key (span_of item.entry) }
{
    is_map(item)
        && item
            .entries()
            .all(|(label, parameter)| is_labelled(label, parameter))
}

fn is_labelled(label: Item, parameter: Item) -> bool
    ensures { result ≡ is_labelled (span_of label.entry, span_of parameter.entry) }
{
    matches!(label.kind(), Kind::Whole | Kind::Text)
        && matches!(
            parameter.kind(),
            Kind::Whole | Kind::Text | Kind::Bytes | Kind::Truth
        )
}

fn key_name(alloc: Global, key: Item) -> Result<KeyName, NoMemory>
    ensures { IfOk result (λ name. name ≡ key_name (span_of key.entry)) }
{
    let bytes = key_bytes(alloc, key)?;
    let hex = to_hex(alloc, &bytes)?;
    let text = format!(in alloc; "cose:{hex}")?;
    Ok(KeyName::from(text))
}

/// The key in its deterministic encoding.
pub fn key_bytes(alloc: Global, key: Item) -> Result<Vec<u8>, NoMemory>
    ensures { IfOk result (λ bytes. bytes.items ≡ key_bytes (span_of key.entry)) }
{
    let pairs = written_pairs(alloc, key)?;
    let mut order = Vec::new(alloc);
    for pair in pairs {
        order.push(pair)?;
    }
    let mut writer = Writer::new(alloc);
    writer.sorted_map(&order)?;
    Ok(writer.finish())
}

// The entries as written, in the byte order of their keys.
fn written_pairs(alloc: Global, key: Item) -> Result<BTreeMap<Vec<u8>, Vec<u8>>, NoMemory>
    ensures { IfOk result
        (λ pairs. owned_pairs pairs.entries ≡ put_written (entries_of (span_of key.entry)) []) }
{
    let mut pairs = BTreeMap::new(alloc);
    for (label, parameter) in key.entries() {
        let label = written(alloc, label)?;
        let parameter = written(alloc, parameter)?;
        pairs.insert(label, parameter)?;
    }
    Ok(pairs)
}

// The deterministic encoding of an integer, a text, a byte string or a boolean.
fn written(alloc: Global, item: Item) -> Result<Vec<u8>, NoMemory>
    ensures { IfOk result (λ bytes. bytes.items ≡ written (span_of item.entry)) }
{
    let mut writer = Writer::new(alloc);
    match item.kind() {
        Kind::Whole => {
            if let Some(number) = item.whole() {
                writer.whole(number)?;
            }
        }
        Kind::Text => {
            if let Some(text) = item.text() {
                writer.text(text)?;
            }
        }
        Kind::Bytes => {
            if let Some(bytes) = item.bytes() {
                writer.bytes(bytes)?;
            }
        }
        Kind::Truth => {
            if let Some(truth) = item.truth() {
                writer.truth(truth)?;
            }
        }
        _ => {}
    }
    Ok(writer.finish())
}
