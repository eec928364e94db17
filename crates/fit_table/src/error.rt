// The error of this crate.
use std::alloc::{AllocError, AllocFailed};

/// Out of memory.
#[derive(Clone, Copy, PartialEq, Eq, Debug, Drop)]
pub struct NoMemory;

impl From<AllocError> for NoMemory {
    fn from(_error: AllocError) -> NoMemory {
        NoMemory
    }
}

impl<T: Drop> From<AllocFailed<T>> for NoMemory {
    fn from(_error: AllocFailed<T>) -> NoMemory {
        NoMemory
    }
}

impl From<dcql_answers::NoMemory> for NoMemory {
    fn from(_error: dcql_answers::NoMemory) -> NoMemory {
        NoMemory
    }
}

impl From<credential_matching::NoMemory> for NoMemory {
    fn from(_error: credential_matching::NoMemory) -> NoMemory {
        NoMemory
    }
}
