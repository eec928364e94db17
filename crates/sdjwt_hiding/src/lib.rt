//! Hiding parts of a JSON value, as an issuer of SD-JWT does (RFC 9901, section 4.2).
#![tactic(auto)]

mod addresses;
mod disclosure_text;
mod error;
mod hidden;
mod laws;
mod walk;

pub use disclosure_text::IssuedDisclosure;
pub use error::NoMemory;
pub use hidden::{Hidden, has_own_digests, hide};
pub use laws::hidden_is_meant;
