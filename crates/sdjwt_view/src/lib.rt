//! SD-JWT VC credentials (RFC 9901) as claim trees.
#![tactic(auto)]

mod content;
mod credential;
mod disclosure_list;
mod error;
mod laws;
mod node;
mod reader;
mod text_parts;

pub use credential::SdCredential;
pub use error::{Error, NoMemory};
pub use laws::read_is_relation;
pub use node::SdNode;
