//! The answers that a query admits, in their order (OpenID4VP 1.0, section 6.4).
//!
//! [`first`] and [`next`] give one after the other, [`page`] some at a time. An answer is admitted by a query
//! and by fits, which say what credential may be picked for which credential query; [`is_admitted`] tells.
#![tactic(auto)]

mod admitted;
mod error;
mod laws;
mod lists;
mod make;
mod pages;
mod picks;
mod sets;
mod steps;

pub use admitted::is_admitted;
pub use error::NoMemory;
pub use laws::{following_is_next, order_is_total};
pub use pages::{Answers, OptionPage, first, next, page};
