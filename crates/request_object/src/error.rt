// Why no request is read or made.
ghost use Rattle.std.specs.Prelude.{◌≡◌};
ghost use Rattle.request_object.specs.code.Errors as of;

use key_device::SignError;
use request_content::{RequestRule, rule};
use std::alloc::AllocError;

/// Why no request was read or made.
#[derive(Clone, Copy, Debug, PartialEq, Eq)]
pub enum Error {
    /// The first rule that is broken. No request that is made is refused.
    Refused(RequestRule),
    /// The device failed.
    DeviceFault,
    /// Out of memory. It may come in place of any other answer.
    NoMemory,
}

impl From<AllocError> for Error {
    ghost use Rattle.std.specs.Prelude.{◌≡◌};
    ghost use Rattle.request_object.specs.declared.error.Error.TheVariants.{NoMemory as OutOfMemory};

    ghost from_gives = { λ _ error. error ≡ OutOfMemory };

    fn from(_: AllocError) -> Self {
        Error::NoMemory
    }
}

impl From<jws_envelope::NoMemory> for Error {
    ghost use Rattle.std.specs.Prelude.{◌≡◌};
    ghost use Rattle.request_object.specs.declared.error.Error.TheVariants.{NoMemory as OutOfMemory};

    ghost from_gives = { λ _ error. error ≡ OutOfMemory };

    fn from(_: jws_envelope::NoMemory) -> Self {
        Error::NoMemory
    }
}

/// The refusal of a link, by rules 1 to 3.
pub(crate) fn link_refusal(error: request_links::Error) -> Error
    ensures { result ≡ of.link_refusal error }
{
    match error {
        request_links::Error::Refused(number) => Error::Refused(rule(number)),
        request_links::Error::NoMemory => Error::NoMemory,
    }
}

/// The refusal of a signed message, by rule 4.
pub(crate) fn message_refusal(error: jws_envelope::Error) -> Error
    ensures { result ≡ of.message_refusal error }
{
    match error {
        jws_envelope::Error::Refused(inner) => Error::Refused(RequestRule { number: 4, inner }),
        jws_envelope::Error::NoMemory => Error::NoMemory,
    }
}

/// The refusal of a message's parameters, by rules 10 to 21.
pub(crate) fn content_refusal(error: request_content::Error) -> Error
    ensures { result ≡ of.content_refusal error }
{
    match error {
        request_content::Error::Refused(rule) => Error::Refused(rule),
        request_content::Error::NoMemory => Error::NoMemory,
    }
}

/// Why the device signed nothing.
pub(crate) fn sign_refusal(error: SignError) -> Error
    ensures { result ≡ of.sign_refusal error }
{
    match error {
        SignError::Failed => Error::DeviceFault,
        SignError::NoMemory => Error::NoMemory,
    }
}
