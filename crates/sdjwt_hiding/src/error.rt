// The error of this crate.
use std::alloc::{AllocError, AllocFailed};

/// Out of memory. No call answers this for another reason.
#[derive(Clone, Copy, PartialEq, Eq, Debug)]
pub struct NoMemory;

impl From<AllocError> for NoMemory {
    fn from(_error: AllocError) -> NoMemory {
        NoMemory
    }
}

impl<T: Drop> From<AllocFailed<T>> for NoMemory {
    fn from(_error: AllocFailed<T>) -> NoMemory {
        NoMemory
    }
}

impl From<base_forms::NoMemory> for NoMemory {
    fn from(_error: base_forms::NoMemory) -> NoMemory {
        NoMemory
    }
}

impl From<claim_tree::NoMemory> for NoMemory {
    fn from(_error: claim_tree::NoMemory) -> NoMemory {
        NoMemory
    }
}
