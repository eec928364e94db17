//! The names of claims and of keys, and the addresses of the parts of a claim tree.
#![tactic(auto)]

mod address;
mod error;
mod key_name;
mod name;

pub use address::{Address, Step};
pub use error::NoMemory;
pub use key_name::KeyName;
pub use name::Name;
