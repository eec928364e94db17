//! Issuing SD-JWT VC credentials (RFC 9901): what an issuer writes, and that it reads as what was asked.
#![tactic(auto)]

mod error;
mod issuing;
mod laws;
mod payload;
mod spec;

pub use error::Error;
pub use issuing::issue;
pub use laws::{ends_as_asked, issued_is_asked};
pub use spec::SdJwtSpec;
