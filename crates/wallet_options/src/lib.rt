//! The command `options` of the wallet: which answers to a signed request it has, a page at a time
//! (OpenID4VP 1.0, sections 5 and 6).
//!
//! The command is defined by its tree of questions in `specs/Options.antt`; [`list_options`] runs it.
#![tactic(auto)]

mod asked;
mod error;
mod options;
mod page;
mod refusals;

pub use asked::Asked;
pub use options::list_options;
