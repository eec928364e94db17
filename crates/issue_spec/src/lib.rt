//! Reading the spec of a test credential: a JSON text that says what an issuer of tests writes, as an SD-JWT
//! VC or as a mobile document.
#![tactic(auto)]

mod read;
mod spec;

pub use read::read_spec;
pub use spec::IssueSpec;
pub use spec_forms::Error;
