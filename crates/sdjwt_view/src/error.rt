// The errors of this crate.
ghost use Rattle.std.specs.Prelude.{◌≡◌};
ghost use Rattle.sdjwt_view.specs.code.EnvelopeError.{of_envelope};

use std::alloc::{AllocError, AllocFailed};

/// Out of memory.
#[derive(Clone, Copy, PartialEq, Eq, Debug)]
pub struct NoMemory;

/// Why a text is no credential.
#[derive(Clone, Copy, PartialEq, Eq, Debug)]
pub enum Error {
    /// The number of the first rule that the text breaks, other than the second.
    Refused(u8),
    /// The issuer's JWS is refused, by the rule of this number.
    Envelope(u8),
    /// Out of memory. It may come in place of any other answer.
    NoMemory,
}

impl From<AllocError> for Error {
    ghost use Rattle.std.specs.Prelude.{◌≡◌};
    ghost use Rattle.sdjwt_view.specs.declared.error.Error.TheVariants.{NoMemory};

    ghost from_gives = { λ _ r. r ≡ NoMemory };

    fn from(_error: AllocError) -> Error {
        Error::NoMemory
    }
}

impl<T: Drop> From<AllocFailed<T>> for Error {
    ghost use Rattle.std.specs.Prelude.{◌≡◌};
    ghost use Rattle.sdjwt_view.specs.declared.error.Error.TheVariants.{NoMemory};

    ghost from_gives = { λ _ r. r ≡ NoMemory };

    fn from(_error: AllocFailed<T>) -> Error {
        Error::NoMemory
    }
}

/// The error for a refused JWS of the issuer.
pub(crate) fn envelope_error(error: jws_envelope::Error) -> Error
    ensures { result ≡ of_envelope error }
{
    match error {
        jws_envelope::Error::Refused(rule) => Error::Envelope(rule),
        jws_envelope::Error::NoMemory => Error::NoMemory,
    }
}
