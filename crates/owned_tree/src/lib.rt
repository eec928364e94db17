//! Claim trees that own their parts, as the readers of both formats keep them in memory, and a view of them.
#![tactic(auto)]

mod members;
mod owned;
mod owned_node;

pub use owned::{OwnedElement, OwnedMember, OwnedTree};
pub use owned_node::OwnedNode;
