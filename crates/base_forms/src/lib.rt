//! Forms that every reader shares: base64url, hexadecimal, dates, the lines of a text, digests by the names
//! of their hash functions, names of keys by their certificates, distinct texts, and tables of numbered
//! rules.
//!
//! Base64url without padding and lower-case hexadecimal are those of RFC 4648. Both are read strictly:
//! a text that is read is the only encoding of its bytes.
#![tactic(auto)]

mod base16;
mod error;
mod hash;
pub mod laws;
mod leaf;
mod lines;
mod rules;
mod tdate;
mod texts;
mod url64;

pub use base16::{from_hex, to_hex};
pub use error::{Error, NoMemory};
pub use hash::{Digest, HashName};
pub use leaf::leaf_name;
pub use lines::{LineError, cut_line};
pub use rules::lesser;
pub use tdate::{DateRule, read_tdate};
pub use texts::{are_distinct, set_of};
pub use url64::{from_url64, to_url64};
