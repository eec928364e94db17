// Why there is no page.
ghost use Rattle.wallet_options.specs.code.Errors.{by_token};

use option_list::Error;
use std::alloc::AllocError;

// Why there is no page.
#[derive(Clone, Copy, PartialEq, Eq, Debug, Drop)]
pub(crate) enum PageError {
    // The token breaks this rule.
    Refused(u8),
    // Out of memory.
    NoMemory,
}

impl From<AllocError> for PageError {
    ghost use Rattle.std.specs.Prelude.{◌≡◌};
    ghost use Rattle.wallet_options.specs.declared.error.PageError.TheVariants.{NoMemory as OutOfMemory};

    ghost from_gives = { λ _ error. error ≡ OutOfMemory };

    fn from(_: AllocError) -> Self {
        PageError::NoMemory
    }
}

impl From<fit_table::NoMemory> for PageError {
    ghost use Rattle.std.specs.Prelude.{◌≡◌};
    ghost use Rattle.wallet_options.specs.declared.error.PageError.TheVariants.{NoMemory as OutOfMemory};

    ghost from_gives = { λ _ error. error ≡ OutOfMemory };

    fn from(_: fit_table::NoMemory) -> Self {
        PageError::NoMemory
    }
}

impl From<option_texts::NoMemory> for PageError {
    ghost use Rattle.std.specs.Prelude.{◌≡◌};
    ghost use Rattle.wallet_options.specs.declared.error.PageError.TheVariants.{NoMemory as OutOfMemory};

    ghost from_gives = { λ _ error. error ≡ OutOfMemory };

    fn from(_: option_texts::NoMemory) -> Self {
        PageError::NoMemory
    }
}

impl From<Error> for PageError {
    ghost use Rattle.std.specs.Prelude.{◌≡◌};

    ghost from_gives = { λ error refusal. refusal ≡ by_token error };

    fn from(error: Error) -> Self {
        match error {
            Error::Refused(rule) => PageError::Refused(rule),
            Error::NoMemory => PageError::NoMemory,
        }
    }
}
