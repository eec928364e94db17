// Why nothing is issued.
ghost use Rattle.std.specs.Prelude.{◌≡◌};

use key_device::SignError;
use sdjwt_hiding::NoMemory;

/// Why nothing is issued.
#[derive(Clone, Copy, Debug, PartialEq, Eq)]
pub enum Error {
    /// Two of the disclosures have one digest.
    SharedDigest,
    /// The device does not hold the issuer's key.
    KeyMissing,
    /// The device failed.
    DeviceFault,
    /// Out of memory. It may come in place of any other answer.
    NoMemory,
}

impl From<NoMemory> for Error {
    ghost use Rattle.std.specs.Prelude.{◌≡◌};
    ghost use Rattle.sdjwt_issue.specs.declared.error.Error.TheVariants.{NoMemory as OutOfMemory};

    ghost from_gives = { λ _ error. error ≡ OutOfMemory };

    fn from(_: NoMemory) -> Error {
        Error::NoMemory
    }
}

impl From<jws_envelope::NoMemory> for Error {
    ghost use Rattle.std.specs.Prelude.{◌≡◌};
    ghost use Rattle.sdjwt_issue.specs.declared.error.Error.TheVariants.{NoMemory as OutOfMemory};

    ghost from_gives = { λ _ error. error ≡ OutOfMemory };

    fn from(_: jws_envelope::NoMemory) -> Error {
        Error::NoMemory
    }
}

/// Nothing was signed.
impl From<SignError> for Error {
    ghost use Rattle.std.specs.Prelude.{◌≡◌};
    ghost use Rattle.sdjwt_issue.specs.code.Unsigned.{unsigned};

    ghost from_gives = { λ error answer. answer ≡ unsigned error };

    fn from(error: SignError) -> Error {
        match error {
            SignError::Failed => Error::DeviceFault,
            SignError::NoMemory => Error::NoMemory,
        }
    }
}
