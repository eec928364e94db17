// The error of this crate.
ghost use Rattle.std.specs.Prelude.{◌≡◌};
ghost use Rattle.mdoc_view.specs.code.Conversions.{of_cbor, of_cose};

use mdoc_security::NoMemory;

/// Why no mobile document was read.
#[derive(Clone, Copy, PartialEq, Eq, Debug)]
pub enum Error {
    /// The number of the first rule that the bytes break. Rules 1 and 3 have variants of their own.
    Refused(u8),
    /// Rule 1: the bytes are not one item of CBOR. The number is that of the broken rule of CBOR.
    Cbor(u8),
    /// Rule 3: `issuerAuth` is refused. The number is that of the broken rule of signed messages.
    Cose(u8),
    /// Out of memory.
    NoMemory,
}

impl From<NoMemory> for Error {
    ghost use Rattle.std.specs.Prelude.{◌≡◌};
    ghost use Rattle.mdoc_view.specs.declared.error.Error.TheVariants.{NoMemory as WantsMemory};

    ghost from_gives = { λ _ error. error ≡ WantsMemory };

    fn from(_error: NoMemory) -> Error {
        Error::NoMemory
    }
}

/// The error of a document whose bytes are refused as CBOR.
pub(crate) fn cbor_error(error: cbor_core::Error) -> Error
    ensures { result ≡ of_cbor error }
{
    match error {
        cbor_core::Error::Refused(rule) => Error::Cbor(rule),
        cbor_core::Error::NoMemory => Error::NoMemory,
    }
}

/// The error of a document whose issuer's signed message is refused.
pub(crate) fn cose_error(error: cose_sign1::Error) -> Error
    ensures { result ≡ of_cose error }
{
    match error {
        cose_sign1::Error::Refused(rule) => Error::Cose(rule),
        cose_sign1::Error::NoMemory => Error::NoMemory,
    }
}
