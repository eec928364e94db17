//! Elements of mobile documents as an issuer writes them: their values in CBOR, and their issuer-signed items
//! (ISO/IEC 18013-5, section 8.3.2.1.2.2).
#![tactic(auto)]

mod element;
mod item;
pub mod laws;
mod pairs;
mod standing;

pub use cbor_core::NoMemory;
pub use element::{byte_string_bytes, element_bytes, number_bytes, text_bytes};
pub use item::{embedded_bytes, item_bytes};
pub use pairs::{named_map, sorted_map};
pub use standing::{Standing, read_standing};
