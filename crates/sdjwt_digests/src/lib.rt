//! The disclosures of an SD-JWT (RFC 9901): what a disclosure says, and where digests stand.
#![tactic(auto)]

pub mod digest_sites;
mod disclosure;
mod disclosures;
mod reserved_names;

pub use disclosure::Disclosure;
pub use disclosures::Disclosures;
pub use reserved_names::reserved_names_rule;
