//! Finding the end of an item.

ghost use Rattle.std.specs.Prelude.{◌≡◌, ◌<◌, length};
ghost use Rattle.cbor_validity.specs.Head.{Gives};
ghost use Rattle.cbor_validity.specs.Item.{string_at, pair_at, times, up_to_break, item_at};

use crate::head::{Fault, Head, head_at};

/// The bytes after the content of a string.
#[tactic(auto, unfolding(crate::specs::Item::string_at))]
pub(crate) fn skip_string(bytes: &[u8], len: u64) -> Result<&[u8], Fault>
    ensures { Gives (λ r. r.now) result (string_at len bytes.now) }
{
    let len = len as usize;
    if bytes.len() < len {
        return Err(Fault::Short);
    }
    Ok(&bytes[len..])
}

/// The bytes after the item at the front.
#[cycle(skip)]
#[tactic(auto, using(crate::proofs::Small::small_string))]
pub fn skip(bytes: &[u8], depth: u32) -> Result<&[u8], Fault>
    ensures { Gives (λ r. r.now) result (item_at depth bytes.now) }
{
    let Some((first, rest)) = bytes.split_first() else {
        return skip_by_head(bytes, depth);
    };
    // Most items are integers and strings whose argument stands in the first byte.
    if *first < 128 && *first % 32 < 24 {
        if *first < 64 {
            return Ok(rest);
        }
        return skip_string(rest, u64::from(*first % 32));
    }
    skip_by_head(bytes, depth)
}

#[cycle(skip)]
#[tactic(auto, unfolding(crate::specs::Item::item_at, crate::specs::Item::behind))]
fn skip_by_head(bytes: &[u8], depth: u32) -> Result<&[u8], Fault>
    ensures { Gives (λ r. r.now) result (item_at depth bytes.now) }
{
    let (head, rest) = head_at(bytes)?;
    match head {
        Head::Unsigned(_) | Head::Negative(_) | Head::Simple(_) | Head::Float => Ok(rest),
        Head::Bytes(len) | Head::Text(len) => skip_string(rest, len),
        Head::Break => Err(Fault::Reserved),
        _ if depth == 0 => Err(Fault::Deep),
        Head::List(Some(n)) => skip_items(rest, n, depth - 1),
        Head::List(None) => skip_items_to_break(rest, depth - 1),
        Head::Map(Some(n)) => skip_pairs(rest, n, depth - 1),
        Head::Map(None) => skip_pairs_to_break(rest, depth - 1),
        Head::Tag(_) => skip(rest, depth - 1),
    }
}

/// The bytes after a key and its value.
#[cycle(skip)]
fn skip_pair(bytes: &[u8], depth: u32) -> Result<&[u8], Fault>
    ensures { Gives (λ r. r.now) result (pair_at (item_at depth) bytes.now) }
{
    let rest = skip(bytes, depth)?;
    skip(rest, depth)
}

#[cycle(skip)]
fn skip_items(bytes: &[u8], count: u64, depth: u32) -> Result<&[u8], Fault>
    ensures { Gives (λ r. r.now) result (times (item_at depth) count bytes.now) }
{
    let mut rest = bytes;
    for _ in 0..count {
        rest = skip(rest, depth)?;
    }
    Ok(rest)
}

#[cycle(skip)]
fn skip_pairs(bytes: &[u8], count: u64, depth: u32) -> Result<&[u8], Fault>
    ensures { Gives (λ r. r.now) result (times (pair_at (item_at depth)) count bytes.now) }
{
    let mut rest = bytes;
    for _ in 0..count {
        rest = skip_pair(rest, depth)?;
    }
    Ok(rest)
}

#[cycle(skip)]
fn skip_items_to_break(bytes: &[u8], depth: u32) -> Result<&[u8], Fault>
    ensures { Gives (λ r. r.now) result (up_to_break (item_at depth) (length bytes.now) bytes.now) }
{
    let mut rest = bytes;
    for _ in 0..bytes.len() {
        let Some((first, after)) = rest.split_first() else {
            return Err(Fault::Short);
        };
        if *first == 255 {
            return Ok(after);
        }
        rest = skip(rest, depth)?;
    }
    Err(Fault::Short)
}

#[cycle(skip)]
fn skip_pairs_to_break(bytes: &[u8], depth: u32) -> Result<&[u8], Fault>
    ensures { Gives (λ r. r.now) result (up_to_break (pair_at (item_at depth)) (length bytes.now) bytes.now) }
{
    let mut rest = bytes;
    for _ in 0..bytes.len() {
        let Some((first, after)) = rest.split_first() else {
            return Err(Fault::Short);
        };
        if *first == 255 {
            return Ok(after);
        }
        rest = skip_pair(rest, depth)?;
    }
    Err(Fault::Short)
}
