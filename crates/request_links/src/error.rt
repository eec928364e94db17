// Why no link is read.
use std::alloc::AllocError;

/// Why no link is read.
#[derive(Clone, Copy, Debug, PartialEq, Eq)]
pub enum Error {
    /// The number of the first rule that is broken, from 1 to 3.
    Refused(u8),
    /// Out of memory. It may come in place of any other answer.
    NoMemory,
}

impl From<AllocError> for Error {
    ghost use Rattle.std.specs.Prelude.{◌≡◌};
    ghost use Rattle.request_links.specs.declared.error.Error.TheVariants.{NoMemory as OutOfMemory};

    ghost from_gives = { λ _ error. error ≡ OutOfMemory };

    fn from(_: AllocError) -> Self {
        Error::NoMemory
    }
}
