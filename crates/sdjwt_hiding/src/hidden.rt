// A value with parts hidden, and their disclosures.
ghost use Rattle.std.specs.Prelude.{◌≡◌, false, map, IfOk, string_bytes};
ghost use Rattle.std.specs.List.{AllByRecursion};
ghost use Rattle.serde_json.specs.View.{view};
ghost use Rattle.serde_json.specs.Written.{has_float};
ghost use Rattle.base_forms.specs.Texts.{differ};
ghost use Rattle.sdjwt_hiding.specs.Addresses.{number_in};
ghost use Rattle.sdjwt_hiding.specs.Hiding.{hidden, met, by_number};
ghost use Rattle.sdjwt_hiding.specs.Disclosing.{by_sha256, all_told, IsReadBack};
ghost use Rattle.sdjwt_hiding.specs.Issued.{all_made};
ghost use Rattle.sdjwt_hiding.specs.code.InOrder.{told_in_order};

use crate::addresses::Places;
use crate::disclosure_text::IssuedDisclosure;
use crate::error::NoMemory;
use crate::walk::hide_value;
use base_forms::are_distinct;
use claim_tree::Address;
use serde_json::Value;
use std::alloc::Global;

/// A value with parts hidden, and the disclosures of these parts.
#[derive(Drop)]
pub struct Hidden {
    /// The value with digests in place of the parts.
    pub value: Value,
    /// The disclosures in the order of the parts' addresses, as these were given.
    pub disclosures: Vec<IssuedDisclosure>,
}

/// Hides the parts of a value at these addresses. An address that leads to no part of it hides nothing. The
/// salt of a disclosure is the place of its address among them. No number of the value may be one that is no
/// integer of 64 bits.
pub fn hide(alloc: Global, value: &Value, hide: &[Address]) -> Result<Hidden, NoMemory>
    requires { has_float (view value.now) ≡ false }
    ensures value { IfOk result
        (λ h. view h.value ≡ hidden by_sha256 (number_in hide.now) (view value.now)) }
    ensures disclosures { IfOk result (λ h. all_made h.disclosures.items
        ≡ all_told (by_number (met by_sha256 (number_in hide.now) (view value.now)))) }
    ensures read { IfOk result
        (λ _. AllByRecursion IsReadBack (met by_sha256 (number_in hide.now) (view value.now))) }
    ensures whole { IfOk result (λ h. has_float (view h.value) ≡ false) }
{
    let marked = Places::new(alloc, hide)?;
    let mut made = Vec::new(alloc);
    let mut path = Address::root(alloc);
    let value = hide_value(alloc, &marked, &mut path, value, &mut made)?;
    let disclosures = by_number(made)?;
    Ok(Hidden { value, disclosures })
}

// The disclosures in the order of their numbers.
fn by_number(made: Vec<IssuedDisclosure>) -> Result<Vec<IssuedDisclosure>, NoMemory>
    ensures { IfOk result (λ v. all_made v.items ≡ told_in_order (all_made made.items)) }
{
    let mut made = made;
    made.sort_by_key(|disclosure| disclosure.number)?;
    Ok(made)
}

/// Whether no two of the disclosures have one digest.
pub fn has_own_digests(alloc: Global, disclosures: &[IssuedDisclosure]) -> Result<bool, NoMemory>
    ensures { IfOk result (λ b. b ≡ differ (map (λ p. p.1) (all_made disclosures.now))) }
{
    let mut digests = Vec::with_capacity(alloc, disclosures.len())?;
    for disclosure in disclosures {
        digests.push(disclosure.digest.as_str())?;
    }
    Ok(are_distinct(alloc, &digests)?)
}
