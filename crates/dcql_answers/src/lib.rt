//! Answers to a query for credentials, their order, and what may be picked for each credential query
//! (OpenID4VP 1.0, section 6).
//!
//! An [`Answer`] has a list of [`Pick`]s for each credential query. [`Fits`] say which credential meets which
//! credential query under which claim set. Credentials, queries and claim sets are named by their places.
#![tactic(auto)]

mod answer;
mod error;
mod fits;
mod pick;

pub use answer::Answer;
pub use error::NoMemory;
pub use fits::{Fit, Fits};
pub use pick::Pick;
