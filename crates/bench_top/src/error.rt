// Why nothing is issued.
ghost use Rattle.std.specs.Prelude.{◌≡◌};

/// Why nothing is issued.
#[derive(Clone, Copy, Debug, PartialEq, Eq)]
pub enum Error {
    /// The least rule that the spec breaks.
    Refused(u8),
    /// The device does not hold the issuer's key.
    KeyMissing,
    /// The device failed.
    DeviceFault,
    /// Out of memory. It may come in place of any other answer.
    NoMemory,
}

impl From<base_forms::NoMemory> for Error {
    ghost use Rattle.std.specs.Prelude.{◌≡◌};
    ghost use Rattle.bench_top.specs.declared.error.Error.TheVariants.{NoMemory as OutOfMemory};

    ghost from_gives = { λ _ error. error ≡ OutOfMemory };

    fn from(_: base_forms::NoMemory) -> Error {
        Error::NoMemory
    }
}

impl From<issue_spec::Error> for Error {
    ghost use Rattle.std.specs.Prelude.{◌≡◌};
    ghost use Rattle.bench_top.specs.code.Endings.{by_spec};

    ghost from_gives = { λ error answer. answer ≡ by_spec error };

    fn from(error: issue_spec::Error) -> Error {
        match error {
            issue_spec::Error::Refused(rule) => Error::Refused(rule),
            issue_spec::Error::NoMemory => Error::NoMemory,
        }
    }
}

/// Two disclosures with one digest break the last rule of specs.
impl From<sdjwt_issue::Error> for Error {
    ghost use Rattle.std.specs.Prelude.{◌≡◌};
    ghost use Rattle.bench_top.specs.code.Endings.{by_sdjwt};

    ghost from_gives = { λ error answer. answer ≡ by_sdjwt error };

    fn from(error: sdjwt_issue::Error) -> Error {
        match error {
            sdjwt_issue::Error::SharedDigest => Error::Refused(6),
            sdjwt_issue::Error::KeyMissing => Error::KeyMissing,
            sdjwt_issue::Error::DeviceFault => Error::DeviceFault,
            sdjwt_issue::Error::NoMemory => Error::NoMemory,
        }
    }
}

impl From<mdoc_issue::Error> for Error {
    ghost use Rattle.std.specs.Prelude.{◌≡◌};
    ghost use Rattle.bench_top.specs.code.Endings.{by_mdoc};

    ghost from_gives = { λ error answer. answer ≡ by_mdoc error };

    fn from(error: mdoc_issue::Error) -> Error {
        match error {
            mdoc_issue::Error::KeyMissing => Error::KeyMissing,
            mdoc_issue::Error::DeviceFault => Error::DeviceFault,
            mdoc_issue::Error::NoMemory => Error::NoMemory,
        }
    }
}
