//! The bytes of CBOR items (RFC 8949): their heads, where an item ends, and whether it is valid. An item is
//! valid where each text string in it is UTF-8 and the keys of each map in it are distinct (section 5.3.1).
#![tactic(auto)]

mod fine;
mod head;
mod key;
mod walk;

pub use fine::{after_fine, is_utf8};
pub use head::{Fault, Head, MAX_DEPTH, head_at};
pub use walk::skip;
