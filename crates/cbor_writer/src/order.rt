//! Pairs in the order of their keys.

ghost use Rattle.std.specs.Prelude.{◌≡◌, IfOk};
ghost use Rattle.cbor_writer.specs.Order.{owned, lent, AreInOrder};

use crate::error::NoMemory;
use std::alloc::Global;

/// The pairs, borrowed.
fn lent_pairs(alloc: Global, pairs: &[(Vec<u8>, Vec<u8>)]) -> Result<Vec<(&[u8], &[u8])>, NoMemory>
    ensures { IfOk result (λ v. lent v.items ≡ owned pairs.now) }
{
    let mut order = Vec::with_capacity(alloc, pairs.len())?;
    for pair in pairs {
        order.push((pair.0.as_slice(), pair.1.as_slice()))?;
    }
    Ok(order)
}

/// The pairs, borrowed, in the bytewise order of their keys.
pub fn in_order(
    alloc: Global,
    pairs: &[(Vec<u8>, Vec<u8>)],
) -> Result<Vec<(&[u8], &[u8])>, NoMemory>
    ensures { IfOk result (λ v. AreInOrder (owned pairs.now) (lent v.items)) }
{
    let mut order = lent_pairs(alloc, pairs)?;
    order.sort_unstable_by_key(|pair| pair.0);
    Ok(order)
}
