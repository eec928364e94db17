// What ends a command early.
ghost use Rattle.std.specs.Prelude.{◌≡◌};
ghost use Rattle.program_steps.specs.code.Endings.{unsigned};
ghost use Rattle.program_steps.specs.declared.stop.Stop.TheVariants.{NoMemory};

use super::reply::Reply;
use key_device::SignError;
use runs::Fault;
use std::alloc::{AllocError, AllocFailed};

/// What ends a command early.
#[derive(Drop)]
pub enum Stop {
    /// A refusal, as it is printed.
    Refused(Reply),
    /// An object failed.
    Failed(Fault),
    /// Out of memory.
    NoMemory,
}

impl From<AllocError> for Stop {
    ghost from_gives = { λ _ e. e ≡ NoMemory };

    fn from(_: AllocError) -> Self {
        Stop::NoMemory
    }
}

impl<T: Drop> From<AllocFailed<T>> for Stop {
    ghost from_gives = { λ _ e. e ≡ NoMemory };

    fn from(_: AllocFailed<T>) -> Self {
        Stop::NoMemory
    }
}

/// Nothing was signed.
impl From<SignError> for Stop {
    ghost from_gives = { λ error stop. stop ≡ unsigned error };

    fn from(error: SignError) -> Self {
        match error {
            SignError::Failed => Stop::Failed(Fault::Device),
            SignError::NoMemory => Stop::NoMemory,
        }
    }
}
