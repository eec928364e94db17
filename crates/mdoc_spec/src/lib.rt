//! Reading the spec of a test mobile document from JSON.
#![tactic(auto)]

mod elements;
mod integers;
mod key_names;
mod levels;
mod members;
mod read;
mod rules;
mod spelling;

pub use read::read_mdoc_spec;
pub use spec_forms::Error;
