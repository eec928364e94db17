//! Signed messages in CBOR (COSE_Sign1, RFC 9052), and the names of the keys that signed them.
#![tactic(auto)]

mod error;
mod headers;
mod issuer;
mod parts;
mod payload;
mod sign1;
mod writing;

pub use error::{Error, NoMemory};
pub use payload::Payload;
pub use sign1::Sign1;
pub use writing::{draft_message, write_sign1};
