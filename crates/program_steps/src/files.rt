// The reading of a file.
ghost use Rattle.std.specs.Prelude.{◌≡◌, option_map};
ghost use Rattle.program_steps.specs.Files.{read_file, text_in};
ghost use Rattle.program_steps.specs.code.Endings.{ending};
ghost use Rattle.runs.specs.Runs.{Runs};
ghost use Rattle.runs.specs.World.{World};

use super::refusals::too_long;
use super::stop::Stop;
use outside::{Store, StoreError};
use runs::Fault;
use std::alloc::Global;

/// How many bytes a file may have that is no credential.
pub const FILE_LIMIT: usize = 1_048_576;

/// The bytes of a file that has no more than `limit` of them.
///
/// # Errors
///
/// A refusal where it has more; a fault of the store; out of memory.
#[tactic(auto, unfolding(runs::specs::Runs::Runs))]
pub fn read_file<S: Store>(
    alloc: Global,
    store: &mut S,
    name: &str,
    limit: usize,
) -> Result<Vec<u8>, Stop>
    ensures { (w : World) → Runs (read_file limit name.now) (record w { store = S.state store.old })
        (record w { store = S.state store.new }) (ending (λ bytes. bytes.items) result) }
{
    match store.read(alloc, name, limit) {
        Ok(bytes) => Ok(bytes),
        Err(StoreError::Failed) => Err(Stop::Failed(Fault::Read)),
        Err(StoreError::TooLong) => Err(Stop::Refused(too_long(alloc, name)?)),
        Err(StoreError::NoMemory) => Err(Stop::NoMemory),
    }
}

/// The text that the bytes are, or none where they are no UTF-8. Takes no memory.
pub fn text_of(bytes: &[u8]) -> Option<&str>
    ensures { option_map (λ text. text.now) result ≡ text_in bytes.now }
{
    match str::from_utf8(bytes) {
        Ok(text) => Some(text),
        Err(_) => None,
    }
}
