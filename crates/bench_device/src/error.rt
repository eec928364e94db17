// Why no keys are read.
use std::alloc::{AllocError, AllocFailed};

/// Out of memory.
#[derive(Clone, Copy, Debug, PartialEq, Eq)]
pub struct NoMemory;

impl From<AllocError> for NoMemory {
    fn from(_: AllocError) -> Self {
        NoMemory
    }
}

/// Why the lines of a text are not read as keys.
#[derive(Clone, Copy, Debug, PartialEq, Eq)]
pub enum Error {
    /// The number, from 1, of the first line that is not of the form of a keys file.
    Line(u32),
    /// Out of memory.
    NoMemory,
}

impl From<NoMemory> for Error {
    ghost use Rattle.std.specs.Prelude.{◌≡◌};
    ghost use Rattle.bench_device.specs.declared.error.Error.TheVariants.{NoMemory as OutOfMemory};

    ghost from_gives = { λ _ error. error ≡ OutOfMemory };

    fn from(_: NoMemory) -> Self {
        Error::NoMemory
    }
}

impl<T: Drop> From<AllocFailed<T>> for Error {
    ghost use Rattle.std.specs.Prelude.{◌≡◌};
    ghost use Rattle.bench_device.specs.declared.error.Error.TheVariants.{NoMemory as OutOfMemory};

    ghost from_gives = { λ _ error. error ≡ OutOfMemory };

    fn from(_: AllocFailed<T>) -> Self {
        Error::NoMemory
    }
}

/// Why the file of keys is not read.
#[derive(Clone, Copy, Debug, PartialEq, Eq)]
pub enum KeysError {
    /// The store failed: the file is not there, or it can't be read.
    ReadFault,
    /// The file has more bytes than its limit.
    TooLong,
    /// The number, from 1, of the first line that is not of the form of a keys file; 1 for a file that is no
    /// UTF-8.
    Line(u32),
    /// Out of memory.
    NoMemory,
}
