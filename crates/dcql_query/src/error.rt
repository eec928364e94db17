// Why a query is not read.
use credential_query::NoMemory;

/// Why a query was not read.
#[derive(Clone, Copy, PartialEq, Eq, Debug, Drop)]
pub enum Error {
    /// The least rule that is broken, from 1 to 22.
    Refused(u8),
    /// Out of memory, which may come in place of any other answer.
    NoMemory,
}

impl From<NoMemory> for Error {
    ghost use Rattle.std.specs.Prelude.{◌≡◌};
    ghost use Rattle.dcql_query.specs.declared.error.Error.TheVariants.{NoMemory};

    ghost from_gives = { λ e r. r ≡ NoMemory };

    fn from(_error: NoMemory) -> Error {
        Error::NoMemory
    }
}
