// Why nothing is issued.
use key_device::SignError;

/// Why nothing is issued.
#[derive(Clone, Copy, Debug, PartialEq, Eq)]
pub enum Error {
    /// The device does not hold the issuer's key.
    KeyMissing,
    /// The device failed.
    DeviceFault,
    /// Out of memory. It may come in place of any other answer.
    NoMemory,
}

impl From<mdoc_object::NoMemory> for Error {
    ghost use Rattle.std.specs.Prelude.{◌≡◌};
    ghost use Rattle.mdoc_issue.specs.declared.error.Error.TheVariants.{NoMemory as OutOfMemory};

    ghost from_gives = { λ _ error. error ≡ OutOfMemory };

    fn from(_: mdoc_object::NoMemory) -> Error {
        Error::NoMemory
    }
}

impl From<cose_sign1::NoMemory> for Error {
    ghost use Rattle.std.specs.Prelude.{◌≡◌};
    ghost use Rattle.mdoc_issue.specs.declared.error.Error.TheVariants.{NoMemory as OutOfMemory};

    ghost from_gives = { λ _ error. error ≡ OutOfMemory };

    fn from(_: cose_sign1::NoMemory) -> Error {
        Error::NoMemory
    }
}

/// Nothing was signed.
impl From<SignError> for Error {
    ghost use Rattle.std.specs.Prelude.{◌≡◌};
    ghost use Rattle.mdoc_issue.specs.code.Unsigned.{unsigned};

    ghost from_gives = { λ error answer. answer ≡ unsigned error };

    fn from(error: SignError) -> Error {
        match error {
            SignError::Failed => Error::DeviceFault,
            SignError::NoMemory => Error::NoMemory,
        }
    }
}
