//! CBOR items (RFC 8949): reading without copying, and deterministic writing (section 4.2.1).
#![tactic(auto)]

mod error;
mod item;
mod kind;
pub mod laws;
mod read;

pub use cbor_validity::MAX_DEPTH;
pub use cbor_writer::{NoMemory, Writer};
pub use error::Error;
pub use item::{Entries, Item, Items};
pub use kind::Kind;
pub use read::read_one;
