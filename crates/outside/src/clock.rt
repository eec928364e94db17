// The time.
ghost use Rattle.outside.specs.Calls.{given};
ghost use Rattle.outside.specs.Clock.{ClockState, IsTold};

use super::error::Failed;

/// A clock.
pub trait Clock {
    /// The moments still to come, where the clock tells them, and a count of faults.
    ghost state: { Self → ClockState };

    /// The time, in whole seconds since 1970-01-01T00:00:00Z. Takes no memory.
    ///
    /// # Errors
    ///
    /// The clock failed, and this was counted.
    fn now(&mut self) -> Result<u64, Failed>
        ensures told { IsTold (state self.old) (state self.new) (given result) };
}
