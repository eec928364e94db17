//! The sets of credential queries that may be answered together (OpenID4VP 1.0, section 6.4.2).
//!
//! [`AnsweredSets::of`] finds them all for a query, and [`AnsweredSets::has`] tells of one whether it is
//! among them. Neither takes memory from an allocator.
#![tactic(auto)]

mod table;

pub use table::AnsweredSets;
