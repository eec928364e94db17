//! Deterministic writing of CBOR items (RFC 8949, section 4.2.1).
#![tactic(auto)]

mod error;
mod order;
mod writer;

pub use error::NoMemory;
pub use writer::Writer;
