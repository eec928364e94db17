//! The processing of an SD-JWT (RFC 9901, section 7.1): what its JSON and its disclosures say together.
#![tactic(auto)]

mod disclosed_tree;
mod member_map;
mod member_names;
mod processing;
mod reachable;
mod site_kinds;
mod spelled_item;

pub use processing::{Processed, process};
pub use sdjwt_digests::Disclosure;
