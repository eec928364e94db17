//! Reading one item.

ghost use Rattle.std.specs.Prelude.{◌≡◌, ◌≤◌, Some, None, IfOk, IfErr};
ghost use Rattle.cbor_core.specs.Seen.{span_of};
ghost use Rattle.cbor_validity.specs.Fine.{fine_at};
ghost use Rattle.cbor_core.specs.Rules.{each_inside, is_fine_text, rule_of, broken_rule};
ghost use Rattle.cbor_core.specs.Refusal.{IsRefusal};

use crate::error::Error;
use crate::item::Item;
use cbor_validity::{Fault, MAX_DEPTH, after_fine, is_utf8};
use std::alloc::Global;

/// Whether the item is UTF-8, if it is a text string.
#[tactic(auto, unfolding(cbor_validity::specs::Fine::is_fine_text))]
fn is_text_fine(item: Item) -> bool
    ensures { result ≡ is_fine_text (span_of item.entry) }
{
    match item.text_bytes() {
        Some(text) => is_utf8(text),
        None => true,
    }
}

/// Whether each text string in the item is UTF-8.
#[tactic(auto, using(cbor_validity::proofs::Inside::each_fails, cbor_validity::proofs::Inside::each_flat, cbor_validity::proofs::Inside::each_deep))]
fn texts_are_utf8(item: Item, depth: u32) -> bool
    ensures { result ≡ each_inside is_fine_text depth (span_of item.entry) }
{
    if !is_text_fine(item) {
        return false;
    }
    if depth == 0 {
        return true;
    }
    for part in item.inside() {
        if !texts_are_utf8(part, depth - 1) {
            return false;
        }
    }
    true
}

/// The number of the rule that is broken.
fn rule_of(fault: Fault) -> u8
    ensures { result ≡ rule_of fault }
{
    match fault {
        Fault::Short => 1,
        Fault::Reserved => 2,
        Fault::Chunked => 3,
        Fault::Deep => 6,
    }
}

/// The rule that the bytes break. They do not begin with a fine item.
#[tactic(auto, unfolding(crate::specs::Rules::broken_rule), using(cbor_validity::proofs::Inside::wrong_maps))]
fn front_rule(bytes: &[u8], depth: u32) -> u8
    requires depth { depth ≤ MAX_DEPTH }
    requires front { fine_at depth bytes.now ≡ None }
    ensures { broken_rule depth bytes.now ≡ Some result }
{
    match Item::first(bytes, depth) {
        Err(fault) => rule_of(fault),
        Ok((item, _)) if texts_are_utf8(item, depth) => 5,
        Ok(_) => 4,
    }
}

/// The one CBOR item (RFC 8949) that the bytes are. At most `depth` lists, maps and tags may stand inside one
/// another. Heads may have any length, and lists and maps may be indefinite.
///
/// # Errors
///
/// `Refused` with the number of the broken rule: 1 the bytes end within the item, 2 a reserved head, 3 a
/// string in chunks, 4 a text string that is not UTF-8, 5 a key that a map has twice, 6 more than `depth`
/// lists, maps and tags inside one another, 7 bytes after the item. If heads break rule 1, 2, 3 or 6, it is
/// the rule that the first such head breaks. Otherwise it is the least broken rule of 4, 5 and 7. `NoMemory`
/// when out of memory.
#[tactic(auto, unfolding(crate::specs::Rules::broken_rule), using(cbor_validity::proofs::Inside::before_nothing, cbor_validity::proofs::Inside::fine_texts, cbor_validity::proofs::Inside::fine_maps))]
pub fn read_one<'a>(alloc: Global, bytes: &'a [u8], depth: u32) -> Result<Item<'a>, Error>
    requires { depth ≤ 64 }
    ensures found { IfOk result (λ item. (broken_rule depth bytes.now ≡ None) × (span_of item ≡ bytes.now)) }
    ensures refused { IfErr result (λ e. IsRefusal e (broken_rule depth bytes.now)) }
{
    match after_fine(alloc, bytes, depth)? {
        Some([]) => Ok(Item::of(bytes)),
        Some(_) => Err(Error::Refused(7)),
        None => Err(Error::Refused(front_rule(bytes, depth))),
    }
}
