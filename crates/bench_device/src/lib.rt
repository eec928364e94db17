//! The device of the bench, whose keys stand in a file. It is a stand-in for a device that keeps keys: its
//! algorithm is in no standard, and its signatures protect nothing.
#![tactic(auto)]

mod bench_device;
mod error;
mod key;
mod keys_file;

pub use bench_device::BenchDevice;
pub use error::{Error, KeysError, NoMemory};
