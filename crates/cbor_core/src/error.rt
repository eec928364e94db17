//! The error of reading.

use cbor_writer::NoMemory;
use std::alloc::AllocError;

/// Why bytes were not read.
#[derive(Clone, Copy, PartialEq, Eq, Debug, Drop)]
pub enum Error {
    /// The number of the broken rule. If a head breaks rule 1, 2, 3 or 6, it is the rule that the first such
    /// head breaks. Otherwise it is the least broken rule of 4, 5 and 7.
    Refused(u8),
    /// Out of memory.
    NoMemory,
}

impl From<AllocError> for Error {
    ghost use Rattle.std.specs.Prelude.{◌≡◌};
    ghost use Rattle.cbor_core.specs.declared.error.Error.TheVariants.{NoMemory as WantsMemory};

    ghost from_gives = { λ _ error. error ≡ WantsMemory };

    fn from(_error: AllocError) -> Error {
        Error::NoMemory
    }
}

impl From<NoMemory> for Error {
    ghost use Rattle.std.specs.Prelude.{◌≡◌};
    ghost use Rattle.cbor_core.specs.declared.error.Error.TheVariants.{NoMemory};

    ghost from_gives = { λ e r. r ≡ NoMemory };

    fn from(_error: NoMemory) -> Error {
        Error::NoMemory
    }
}
