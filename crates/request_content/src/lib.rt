//! The parameters inside a signed request (OpenID4VP 1.0, section 5; RFC 9101): the rules that they must
//! keep, and the query among them.
//!
//! [`read_query`] reads the payload of a request object by the rules 10 to 21 of a request, and refuses it by
//! the first that is broken.
#![tactic(auto)]

mod address;
mod content_rules;
mod error;
mod query;

pub use error::{Error, RequestRule, rule};
pub use query::read_query;
