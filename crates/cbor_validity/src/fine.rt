//! Reading and checking the item at the front in one walk. An item is fine where each string of text in it is
//! UTF-8 and the keys of each map in it are distinct.

ghost use Rattle.std.specs.Prelude.{◌≡◌, ◌≤◌, IfOk, Some, None, option_map, map, length, true, if◌then◌else◌};
ghost use Rattle.cbor_validity.specs.Keys.{keys_differ};
ghost use Rattle.std.specs.Str.{is_utf8 as utf8_test};
ghost use Rattle.cbor_validity.specs.Parts.{before_break};
ghost use Rattle.cbor_validity.specs.Item.{string_at, pair_at, times, up_to_break, item_at};
ghost use Rattle.cbor_validity.specs.Fine.{checked, fine_at};
ghost use Rattle.cbor_validity.specs.code.FineParts.{are_fine, are_entries_fine, fine_list_at, fine_map_at};
ghost use Rattle.cbor_validity.specs.code.FineParts.{fine_entry_at};
ghost use Rattle.cbor_validity.specs.code.KeySeen.{meaning_of};

use crate::head::{Head, MAX_DEPTH, head_at};
use crate::key::{Key, are_different, key_of};
use crate::walk::skip_string;
use std::alloc::{AllocError, Global};
use std::str;

/// Whether the bytes are UTF-8.
pub fn is_utf8(bytes: &[u8]) -> bool
    ensures { result ≡ utf8_test bytes.now }
{
    match str::from_utf8(bytes) {
        Ok(_) => true,
        Err(_) => false,
    }
}

/// The bytes after the item at the front, if there is one and it is fine.
#[tactic(auto, using(crate::proofs::OneWalk::headless, crate::proofs::OneWalk::flat_head, crate::proofs::OneWalk::bytes_head, crate::proofs::OneWalk::text_head, crate::proofs::OneWalk::break_head, crate::proofs::OneWalk::too_deep_fine, crate::proofs::OneWalk::list_head, crate::proofs::OneWalk::map_head, crate::proofs::OneWalk::tag_head))]
#[cycle(fine)]
pub fn after_fine(alloc: Global, bytes: &[u8], depth: u32) -> Result<Option<&[u8]>, AllocError>
    requires { depth ≤ MAX_DEPTH }
    ensures { IfOk result (λ o. option_map (λ r. r.now) o ≡ fine_at depth bytes.now) }
{
    let Ok((head, back)) = head_at(bytes) else {
        return Ok(None);
    };
    match head {
        Head::Unsigned(_) | Head::Negative(_) | Head::Simple(_) | Head::Float => Ok(Some(back)),
        Head::Bytes(len) => Ok(after_bytes(back, len)),
        Head::Text(len) => Ok(after_text(back, len)),
        Head::List(count) if depth > 0 => after_list(alloc, back, count, depth - 1),
        Head::Map(count) if depth > 0 => after_map(alloc, back, count, depth - 1),
        Head::Tag(_) if depth > 0 => after_fine(alloc, back, depth - 1),
        Head::List(_) | Head::Map(_) | Head::Tag(_) | Head::Break => Ok(None),
    }
}

fn after_bytes(bytes: &[u8], len: u64) -> Option<&[u8]>
    ensures { option_map (λ r. r.now) result ≡ checked (λ _. true) (string_at len) bytes.now }
{
    match skip_string(bytes, len) {
        Ok(rest) => Some(rest),
        Err(_) => None,
    }
}

#[tactic(auto, using(crate::proofs::OneWalk::short_text, crate::proofs::OneWalk::right_text, crate::proofs::OneWalk::wrong_text))]
fn after_text(bytes: &[u8], len: u64) -> Option<&[u8]>
    ensures { option_map (λ r. r.now) result ≡ checked utf8_test (string_at len) bytes.now }
{
    let len = len as usize;
    if bytes.len() < len {
        return None;
    }
    let (text, rest) = bytes.split_at(len);
    if is_utf8(text) { Some(rest) } else { None }
}

/// The bytes after the elements of a list, if they are fine.
#[cycle(fine)]
fn after_list(
    alloc: Global,
    bytes: &[u8],
    count: Option<u64>,
    depth: u32,
) -> Result<Option<&[u8]>, AllocError>
    requires { depth ≤ MAX_DEPTH }
    ensures { IfOk result (λ o. option_map (λ r. r.now) o ≡ fine_list_at depth count bytes.now) }
{
    match count {
        Some(count) => after_items(alloc, bytes, count, depth),
        None => after_items_to_break(alloc, bytes, depth),
    }
}

/// The bytes after the entries of a map, if they are fine and the keys are distinct.
#[cycle(fine)]
fn after_map(
    alloc: Global,
    bytes: &[u8],
    count: Option<u64>,
    depth: u32,
) -> Result<Option<&[u8]>, AllocError>
    requires { depth ≤ MAX_DEPTH }
    ensures { IfOk result (λ o. option_map (λ r. r.now) o ≡ fine_map_at depth count bytes.now) }
{
    match count {
        Some(count) => after_entries(alloc, bytes, count, depth),
        None => after_entries_to_break(alloc, bytes, depth),
    }
}

#[tactic(auto, using(crate::proofs::OneWalk::items_step, crate::proofs::OneWalk::items_fail, crate::proofs::OneWalk::items_done))]
#[cycle(fine)]
fn after_items(
    alloc: Global,
    bytes: &[u8],
    count: u64,
    depth: u32,
) -> Result<Option<&[u8]>, AllocError>
    requires { depth ≤ MAX_DEPTH }
    ensures { IfOk result
        (λ o. option_map (λ r. r.now) o ≡ checked (are_fine depth) (times (item_at depth) count) bytes.now) }
{
    let mut rest = bytes;
    for _ in 0..count {
        match after_fine(alloc, rest, depth)? {
            Some(after) => rest = after,
            None => return Ok(None),
        }
    }
    Ok(Some(rest))
}

#[tactic(auto, using(crate::proofs::OneWalk::open_step, crate::proofs::OneWalk::open_fail, crate::proofs::OneWalk::open_done, crate::proofs::OneWalk::no_break))]
#[cycle(fine)]
fn after_items_to_break(
    alloc: Global,
    bytes: &[u8],
    depth: u32,
) -> Result<Option<&[u8]>, AllocError>
    requires { depth ≤ MAX_DEPTH }
    ensures { IfOk result (λ o. option_map (λ r. r.now) o
        ≡ checked (λ c. are_fine depth (before_break c))
        (up_to_break (item_at depth) (length bytes.now)) bytes.now) }
{
    let mut rest = bytes;
    for _ in 0..bytes.len() {
        let Some((first, back)) = rest.split_first() else {
            return Ok(None);
        };
        if *first == 255 {
            return Ok(Some(back));
        }
        match after_fine(alloc, rest, depth)? {
            Some(after) => rest = after,
            None => return Ok(None),
        }
    }
    Ok(None)
}

/// The key at the front and the bytes after its value, if both are fine.
#[tactic(auto, using(crate::proofs::OneWalk::fine_shorter))]
#[cycle(fine)]
fn after_entry(
    alloc: Global,
    bytes: &[u8],
    depth: u32,
) -> Result<Option<(Key<'_>, &[u8])>, AllocError>
    requires { depth ≤ MAX_DEPTH }
    ensures { IfOk result (λ o.
        option_map (λ e. (meaning_of e.0, e.1.now)) o ≡ fine_entry_at depth bytes.now) }
{
    let Some(back) = after_fine(alloc, bytes, depth)? else {
        return Ok(None);
    };
    let Some(rest) = after_fine(alloc, back, depth)? else {
        return Ok(None);
    };
    let key = key_of(&bytes[..bytes.len() - back.len()]);
    Ok(Some((key, rest)))
}

#[tactic(auto, using(crate::proofs::OneWalk::entries_next, crate::proofs::OneWalk::entries_stop, crate::proofs::OneWalk::entries_done))]
#[cycle(fine)]
fn after_entries(
    alloc: Global,
    bytes: &[u8],
    count: u64,
    depth: u32,
) -> Result<Option<&[u8]>, AllocError>
    requires { depth ≤ MAX_DEPTH }
    ensures { IfOk result (λ o. option_map (λ r. r.now) o
        ≡ checked (are_entries_fine depth) (times (pair_at (item_at depth)) count) bytes.now) }
{
    let mut keys = Vec::new(alloc);
    let mut rest = bytes;
    for _ in 0..count {
        let Some((key, after)) = after_entry(alloc, rest, depth)? else {
            return Ok(None);
        };
        keys.push(key)?;
        rest = after;
    }
    Ok(if_different(keys, rest))
}

#[tactic(auto, using(crate::proofs::OneWalk::open_entries_next, crate::proofs::OneWalk::open_entries_stop, crate::proofs::OneWalk::open_entries_done, crate::proofs::OneWalk::no_break))]
#[cycle(fine)]
fn after_entries_to_break(
    alloc: Global,
    bytes: &[u8],
    depth: u32,
) -> Result<Option<&[u8]>, AllocError>
    requires { depth ≤ MAX_DEPTH }
    ensures { IfOk result (λ o. option_map (λ r. r.now) o
        ≡ checked (λ c. are_entries_fine depth (before_break c))
        (up_to_break (pair_at (item_at depth)) (length bytes.now)) bytes.now) }
{
    let mut keys = Vec::new(alloc);
    let mut rest = bytes;
    for _ in 0..bytes.len() {
        let Some((first, back)) = rest.split_first() else {
            return Ok(None);
        };
        if *first == 255 {
            return Ok(if_different(keys, back));
        }
        let Some((key, after)) = after_entry(alloc, rest, depth)? else {
            return Ok(None);
        };
        keys.push(key)?;
        rest = after;
    }
    Ok(None)
}

/// The bytes after a map's entries, if its keys are distinct.
fn if_different<'b>(keys: Vec<Key<'b>>, rest: &'b [u8]) -> Option<&'b [u8]>
    ensures { option_map (λ r. r.now) result ≡
        (if keys_differ (map meaning_of keys.entry.items) then Some rest.now else None) }
{
    if are_different(keys) {
        Some(rest)
    } else {
        None
    }
}
