// Why the parameters of a request are refused.
ghost use Rattle.std.specs.Prelude.{◌≡◌};
ghost use Rattle.request_content.specs.Rules.{number as plain};
ghost use Rattle.request_content.specs.code.Errors as of;

use std::alloc::AllocError;

/// A broken rule: its number, and the number of the rule within it where it has a table of its own, else 0.
#[derive(Clone, Copy, Debug, PartialEq, Eq)]
pub struct RequestRule {
    pub number: u8,
    pub inner: u8,
}

/// Why the parameters of a request are refused.
#[derive(Clone, Copy, Debug, PartialEq, Eq)]
pub enum Error {
    /// The first rule that is broken.
    Refused(RequestRule),
    /// Out of memory. It may come in place of any other answer.
    NoMemory,
}

impl From<AllocError> for Error {
    ghost use Rattle.std.specs.Prelude.{◌≡◌};
    ghost use Rattle.request_content.specs.declared.error.Error.TheVariants.{NoMemory as OutOfMemory};

    ghost from_gives = { λ _ error. error ≡ OutOfMemory };

    fn from(_: AllocError) -> Self {
        Error::NoMemory
    }
}

/// The rule of this number, which has no table of its own.
pub fn rule(number: u8) -> RequestRule
    ensures { result ≡ plain number }
{
    RequestRule { number, inner: 0 }
}

/// The refusal of a query, by rule 21.
pub(crate) fn query_refusal(error: dcql_query::Error) -> Error
    ensures { result ≡ of.query_refusal error }
{
    match error {
        dcql_query::Error::Refused(inner) => Error::Refused(RequestRule { number: 21, inner }),
        dcql_query::Error::NoMemory => Error::NoMemory,
    }
}
