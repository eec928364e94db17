//! Mobile documents (ISO/IEC 18013-5) as credentials with a claim tree.
#![tactic(auto)]

mod content;
mod credential;
mod error;
mod issuer_signed;
mod item_rules;
mod laws;
mod node;
mod reader;

pub use credential::MdCredential;
pub use error::Error;
pub use laws::read_is_relation;
pub use mdoc_security::NoMemory;
pub use node::MdNode;
