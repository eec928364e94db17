//! Reading the spec of a test SD-JWT VC from JSON.
#![tactic(auto)]

mod addresses;
mod key_names;
mod members;
mod read;
mod rules;

pub use read::read_sdjwt_spec;
pub use spec_forms::Error;
