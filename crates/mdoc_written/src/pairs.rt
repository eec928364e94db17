// Maps whose keys are texts that the caller knows.
ghost use Rattle.std.specs.Prelude.{◌≡◌, ◌++◌, ◌<◌, length, IfOk, OnOk};
ghost use Rattle.cbor_core.specs.Writing.{head_bytes};
ghost use Rattle.cbor_core.specs.Order.{owned};
ghost use Rattle.mdoc_written.specs.Containers.{map_bytes, sorted_map_bytes, Differ, AllRelated};
ghost use Rattle.mdoc_written.specs.code.Pairs.{lent};

use cbor_core::{NoMemory, Writer};
use std::alloc::Global;

/// The head of an empty map.
const NO_PAIRS: u8 = 160;

/// The map of these texts, each with the encoded item that it is the key of. They stand in the bytewise order
/// of their encodings.
pub fn named_map(alloc: Global, pairs: &[(&str, &[u8])]) -> Result<Vec<u8>, NoMemory>
    requires { length pairs.now < 24 }
    ensures { IfOk result (λ v. v.items ≡ map_bytes (lent pairs.now)) }
{
    let mut writer = Writer::new(alloc);
    put_map_head(&mut writer, pairs.len() as u8)?;
    for pair in pairs {
        writer.text(pair.0)?;
        writer.raw(pair.1)?;
    }
    Ok(writer.finish())
}

/// The map of these keys and values, each of them an encoded item, in the bytewise order of the keys.
pub fn sorted_map(alloc: Global, pairs: &[(Vec<u8>, Vec<u8>)]) -> Result<Vec<u8>, NoMemory>
    requires { AllRelated Differ (owned pairs.now) }
    ensures { IfOk result (λ v. v.items ≡ sorted_map_bytes (owned pairs.now)) }
{
    let mut writer = Writer::new(alloc);
    writer.sorted_map(pairs)?;
    Ok(writer.finish())
}

// The head of a map of `n` pairs.
#[tactic(auto, unfolding(cbor_writer::specs::Writing::head_bytes))]
fn put_map_head(writer: &mut Writer, n: u8) -> Result<(), NoMemory>
    requires { n < 24 }
    ensures { OnOk result (writer.new ≡ writer.old ++ head_bytes 5 n) }
{
    writer.raw(&[NO_PAIRS + n])
}
