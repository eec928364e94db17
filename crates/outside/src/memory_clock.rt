// A clock that gives moments from memory.
ghost use Rattle.std.specs.Prelude.{◌≡◌, IfOk};
ghost use Rattle.std.specs.Result.{result_ok};
ghost use Rattle.outside.specs.Calls.{given};
ghost use Rattle.outside.specs.Clock.{IsTold};
ghost use Rattle.outside.specs.Faults.{counted};
ghost use Rattle.outside.specs.code.MemoryClock.{moments_in, faults_of, state_of, first, later};

use super::clock::Clock;
use super::error::{Failed, NoMemory};
use std::alloc::Global;

/// A clock that gives these moments, one after another. A call past the last is a fault.
#[derive(Drop)]
pub struct MemoryClock {
    moments: Vec<u64>,
    given: usize,
    faults: u64,
}

impl MemoryClock {
    /// A clock that gives these moments, in this order.
    ///
    /// # Errors
    ///
    /// Out of memory.
    pub fn new(alloc: Global, moments: &[u64]) -> Result<MemoryClock, NoMemory>
        ensures moments { IfOk result (λ clock. moments_in clock ≡ moments.now) }
        ensures faults { IfOk result (λ clock. faults_of clock ≡ 0) }
    {
        Ok(MemoryClock {
            moments: Vec::from_slice(alloc, moments)?,
            given: 0,
            faults: 0,
        })
    }
}

impl Clock for MemoryClock {
    ghost state = { state_of };

    fn now(&mut self) -> Result<u64, Failed>
        ensures told { IsTold (state_of self.old) (state_of self.new) (given result) }

        // The call fails exactly where no moment is left.
        ensures exact { result_ok result ≡ first (moments_in self.old) }
        ensures left { moments_in self.new ≡ later (moments_in self.old) }
        ensures faults { faults_of self.new ≡ counted (faults_of self.old) (first (moments_in self.old)) }
    {
        match self.moments.get(self.given) {
            Some(moment) => {
                let moment = *moment;
                self.given += 1;
                Ok(moment)
            }
            None => {
                self.faults = self.faults.saturating_add(1);
                Err(Failed)
            }
        }
    }
}
