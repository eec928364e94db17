// The errors of this crate.
use std::alloc::AllocError;

/// Out of memory.
#[derive(Clone, Copy, PartialEq, Eq, Debug)]
pub struct NoMemory;

impl From<AllocError> for NoMemory {
    fn from(_error: AllocError) -> NoMemory {
        NoMemory
    }
}

impl From<base_forms::NoMemory> for NoMemory {
    fn from(_error: base_forms::NoMemory) -> NoMemory {
        NoMemory
    }
}

impl From<cbor_core::NoMemory> for NoMemory {
    fn from(_error: cbor_core::NoMemory) -> NoMemory {
        NoMemory
    }
}

impl From<claim_tree::NoMemory> for NoMemory {
    fn from(_error: claim_tree::NoMemory) -> NoMemory {
        NoMemory
    }
}

/// Why no signed message was read.
#[derive(Clone, Copy, PartialEq, Eq, Debug)]
pub enum Error {
    /// The number of the first rule that the item breaks.
    Refused(u8),
    /// Out of memory.
    NoMemory,
}

impl From<NoMemory> for Error {
    ghost use Rattle.std.specs.Prelude.{◌≡◌};
    ghost use Rattle.cose_sign1.specs.declared.error.Error.TheVariants.{NoMemory as WantsMemory};

    ghost from_gives = { λ _ error. error ≡ WantsMemory };

    fn from(_error: NoMemory) -> Error {
        Error::NoMemory
    }
}
