//! Queries for credentials in the Digital Credentials Query Language (OpenID4VP 1.0, section 6).
//!
//! [`Query::from_json`] reads a query by 22 numbered rules and refuses it by the least that is broken.
//! [`Query::satisfied`] says whether presentations for some of its credential queries are enough.
//! [`claims_met`] says whether a claim tree has what a claim set asks for. [`is_id`] is the form of an id.
#![tactic(auto)]

mod error;
mod query;
mod read;
mod read_sets;
mod satisfied;

pub use credential_query::{CredentialQuery, NoMemory, claims_met};
pub use dcql_answers::{Answer, Fit, Fits, Pick};
pub use dcql_rules::is_id;
pub use error::Error;
pub use query::Query;
