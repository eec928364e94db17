// The error of this crate.
use std::alloc::{AllocError, AllocFailed};

/// Out of memory.
#[derive(Clone, Copy, PartialEq, Eq, Debug, Drop)]
pub struct NoMemory;

impl From<AllocError> for NoMemory {
    fn from(_error: AllocError) -> NoMemory {
        NoMemory
    }
}

impl<T: Drop> From<AllocFailed<T>> for NoMemory {
    fn from(_error: AllocFailed<T>) -> NoMemory {
        NoMemory
    }
}

impl From<option_list::NoMemory> for NoMemory {
    fn from(_error: option_list::NoMemory) -> NoMemory {
        NoMemory
    }
}

impl From<fit_table::NoMemory> for NoMemory {
    fn from(_error: fit_table::NoMemory) -> NoMemory {
        NoMemory
    }
}
