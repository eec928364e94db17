// Why a token is not read.
use admitted_answers::NoMemory;

/// Why a token was not read.
#[derive(Clone, Copy, PartialEq, Eq, Debug, Drop)]
pub enum Error {
    /// The least rule that is broken:
    ///
    /// 1. it has the form of a token;
    /// 2. each of its ids is that of a credential query;
    /// 3. it is the token of an admitted answer.
    Refused(u8),
    /// Out of memory, which may come in place of any other answer.
    NoMemory,
}

impl From<NoMemory> for Error {
    ghost use Rattle.std.specs.Prelude.{◌≡◌};
    ghost use Rattle.option_list.specs.declared.error.Error.TheVariants.{NoMemory};

    ghost from_gives = { λ e r. r ≡ NoMemory };

    fn from(_error: NoMemory) -> Error {
        Error::NoMemory
    }
}
