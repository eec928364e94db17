//! Credential queries: what a query in the Digital Credentials Query Language asks of one credential
//! (OpenID4VP 1.0, sections 6.1, 6.3 and 6.4.1).
//!
//! [`CredentialQuery::from_valid`] reads one from JSON that breaks no rule. [`claims_met`] says whether a
//! claim tree has what a claim set asks for.
#![tactic(auto)]

mod claims;
mod credential;
mod error;
mod read;
mod read_sets;

pub use claims::claims_met;
pub use credential::{Claim, CredentialQuery};
pub use error::NoMemory;
