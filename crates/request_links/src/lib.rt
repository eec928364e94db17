//! Links that carry a signed request in their query.
//!
//! [`read_link`] reads one by three numbered rules and refuses it by the first that is broken. A text without
//! a question mark is no link.
#![tactic(auto)]

mod error;
mod link;
mod parameters;

pub use error::Error;
pub use link::{Link, read_link};
