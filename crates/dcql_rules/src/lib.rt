//! The rules of a query in the Digital Credentials Query Language, as tests about its JSON (OpenID4VP 1.0,
//! section 6).
//!
//! [`query_rule`] gives the least of 22 numbered rules that a query breaks. [`is_id`] is the form of an id.
//! [`is_named`], [`has_format`] and [`flag_at`] look at single members. None of them takes memory.
#![tactic(auto)]

mod claim_rules;
mod credential_rules;
mod credential_set_rules;
mod flags;
mod ids;
mod query_rules;

pub use credential_rules::has_format;
pub use flags::flag_at;
pub use ids::{is_id, is_named};
pub use query_rules::query_rule;
