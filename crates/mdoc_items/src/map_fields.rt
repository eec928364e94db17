// Looks into the maps of a document.
ghost use Rattle.std.specs.Prelude.{◌≡◌, IfOk, option_map};
ghost use Rattle.cbor_core.specs.Seen.{span_of};
ghost use Rattle.cbor_core.specs.Views.{is_map, kind_of, entries_of};
ghost use Rattle.mdoc_items.specs.MapFields.{is_list, natural_of, map_of, text_at, map_at, one_map, embedded};

use cbor_core::{Item, Kind, read_one};
use std::alloc::{AllocError, Global};

/// How many lists, maps and tags may lie inside one another.
pub const LEVELS: u32 = 32;

/// The tag of an encoded item in a byte string.
const ENCODED: u64 = 24;

pub fn is_map(item: Item) -> bool
    ensures { result ≡ is_map (kind_of (span_of item.entry)) }
{
    matches!(item.kind(), Kind::Map)
}

pub fn is_list(item: Item) -> bool
    ensures { result ≡ is_list (kind_of (span_of item.entry)) }
{
    matches!(item.kind(), Kind::List)
}

/// The integer that an item is, if it is not negative.
pub fn natural(item: Item) -> Option<u64>
    ensures { result ≡ natural_of (span_of item.entry) }
{
    let number = item.whole()?;
    if number >= 0 {
        Some(number as u64)
    } else {
        None
    }
}

fn if_map<'t>(item: Item<'t>) -> Option<Item<'t>>
    ensures { option_map (λ i. entries_of (span_of i)) result ≡ map_of (span_of item.entry) }
{
    if is_map(item) { Some(item) } else { None }
}

/// The text under a name in a map.
pub fn text_at<'t>(map: Item<'t>, name: &str) -> Option<&'t str>
    ensures { option_map (λ s. s.now) result ≡ text_at name.now (entries_of (span_of map.entry)) }
{
    map.find(name)?.text()
}

/// The map under a name in a map.
pub fn map_at<'t>(map: Item<'t>, name: &str) -> Option<Item<'t>>
    ensures { option_map (λ i. entries_of (span_of i)) result ≡ map_at name.now
        (entries_of (span_of map.entry)) }
{
    if_map(map.find(name)?)
}

/// The bytes of the encoded item that an item embeds under tag 24.
pub fn embedded<'t>(item: Item<'t>) -> Option<&'t [u8]>
    ensures { option_map (λ b. b.now) result ≡ embedded (span_of item.entry) }
{
    match item.tag() {
        Some((ENCODED, inner)) => inner.bytes(),
        _ => None,
    }
}

/// The one map that bytes are, or `None` where they are no item of CBOR or no map.
pub fn read_map<'t>(alloc: Global, bytes: &'t [u8]) -> Result<Option<Item<'t>>, AllocError>
    ensures { IfOk result (λ o. option_map (λ i. entries_of (span_of i)) o ≡ one_map bytes.now) }
{
    match read_one(alloc, bytes, LEVELS) {
        Ok(item) => Ok(if_map(item)),
        Err(cbor_core::Error::Refused(_)) => Ok(None),
        Err(cbor_core::Error::NoMemory) => Err(AllocError),
    }
}
