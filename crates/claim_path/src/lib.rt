//! Claims path pointers of OpenID4VP 1.0, and what they hit in a claim tree.
#![tactic(auto)]

mod all_hits;
mod any_hit;
mod error;
mod path;
mod read;

pub use all_hits::hits;
pub use any_hit::has_hit;
pub use error::{Error, NoMemory};
pub use path::{Path, PathStep, Scalar, Values};
pub use read::{path_rule, values_rule};
