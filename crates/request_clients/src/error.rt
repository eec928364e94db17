// Why no clients are read.
use std::alloc::{AllocError, AllocFailed};

/// Why the lines of a text are not read as clients.
#[derive(Clone, Copy, Debug, PartialEq, Eq)]
pub enum Error {
    /// The number, from 1, of the first line that is not of the form of a clients file.
    Line(u32),
    /// Out of memory. It may come in place of any other answer.
    NoMemory,
}

impl From<AllocError> for Error {
    ghost use Rattle.std.specs.Prelude.{◌≡◌};
    ghost use Rattle.request_clients.specs.declared.error.Error.TheVariants.{NoMemory as OutOfMemory};

    ghost from_gives = { λ _ error. error ≡ OutOfMemory };

    fn from(_: AllocError) -> Self {
        Error::NoMemory
    }
}

impl From<claim_tree::NoMemory> for Error {
    ghost use Rattle.std.specs.Prelude.{◌≡◌};
    ghost use Rattle.request_clients.specs.declared.error.Error.TheVariants.{NoMemory as OutOfMemory};

    ghost from_gives = { λ _ error. error ≡ OutOfMemory };

    fn from(_: claim_tree::NoMemory) -> Self {
        Error::NoMemory
    }
}

impl<T: Drop> From<AllocFailed<T>> for Error {
    ghost use Rattle.std.specs.Prelude.{◌≡◌};
    ghost use Rattle.request_clients.specs.declared.error.Error.TheVariants.{NoMemory as OutOfMemory};

    ghost from_gives = { λ _ error. error ≡ OutOfMemory };

    fn from(_: AllocFailed<T>) -> Self {
        Error::NoMemory
    }
}
