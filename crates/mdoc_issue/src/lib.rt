//! Issuing mobile documents (ISO/IEC 18013-5): what an issuer of tests writes, signed by a device of keys.
#![tactic(auto)]

mod error;
mod issuing;
mod laws;
mod spec;

pub use error::Error;
pub use issuing::issue;
pub use laws::{ends_as_asked, issued_is_asked};
pub use spec::MdocSpec;
