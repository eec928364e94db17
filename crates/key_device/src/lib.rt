//! Devices of keys, which sign messages and judge signatures.
//!
//! A device has one ghost member, its state: the names that it holds with their algorithms, what it judges
//! yes, what it was asked and gave, where it tells that, and a count of its faults. The contract of a call is
//! one relation between the states before and after it and what it answers. [`MemoryDevice`] tells all that
//! it was asked, and fails where it is told to.
#![tactic(auto)]

mod allowed;
mod asked;
mod device;
mod error;
mod memory_device;

pub use asked::{Asked, NamedAlg};
pub use device::{Judged, KeyDevice, SignError};
pub use error::NoMemory;
pub use memory_device::MemoryDevice;
