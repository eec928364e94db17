// Why a spec is not read.
use std::alloc::{AllocError, AllocFailed};

/// Out of memory.
#[derive(Clone, Copy, PartialEq, Eq, Debug, Drop)]
pub struct NoMemory;

impl From<AllocError> for NoMemory {
    fn from(_error: AllocError) -> NoMemory {
        NoMemory
    }
}

impl<T: Drop> From<AllocFailed<T>> for NoMemory {
    fn from(_error: AllocFailed<T>) -> NoMemory {
        NoMemory
    }
}

impl From<claim_tree::NoMemory> for NoMemory {
    fn from(_error: claim_tree::NoMemory) -> NoMemory {
        NoMemory
    }
}

impl From<jws_envelope::NoMemory> for NoMemory {
    fn from(_error: jws_envelope::NoMemory) -> NoMemory {
        NoMemory
    }
}

impl From<base_forms::NoMemory> for NoMemory {
    fn from(_error: base_forms::NoMemory) -> NoMemory {
        NoMemory
    }
}

impl From<cbor_writer::NoMemory> for NoMemory {
    fn from(_error: cbor_writer::NoMemory) -> NoMemory {
        NoMemory
    }
}

/// Why a spec is not read.
#[derive(Clone, Copy, PartialEq, Eq, Debug, Drop)]
pub enum Error {
    /// The number of the least rule that the spec breaks.
    Refused(u8),
    /// Out of memory, which may come in place of any other answer.
    NoMemory,
}

impl From<AllocError> for Error {
    ghost use Rattle.std.specs.Prelude.{◌≡◌};
    ghost use Rattle.spec_forms.specs.declared.error.Error.TheVariants.{NoMemory as WantsMemory};

    ghost from_gives = { λ _ e. e ≡ WantsMemory };

    fn from(_error: AllocError) -> Error {
        Error::NoMemory
    }
}

impl From<NoMemory> for Error {
    ghost use Rattle.std.specs.Prelude.{◌≡◌};
    ghost use Rattle.spec_forms.specs.declared.error.Error.TheVariants.{NoMemory as WantsMemory};

    ghost from_gives = { λ _ e. e ≡ WantsMemory };

    fn from(_error: NoMemory) -> Error {
        Error::NoMemory
    }
}
