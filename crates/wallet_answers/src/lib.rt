//! The answers that a query admits of what a holder has, a page at a time (OpenID4VP 1.0, sections 6.1 and
//! 6.4).
//!
//! What is admitted is said of the credentials of a wallet, the keys that a device holds and a moment, and of
//! nothing that is computed on the way (`specs/Admitted.antt`). [`page_after`] gives a page of it.
#![tactic(auto)]

mod laws;
mod pages;

pub use laws::answers_are_listed;
pub use option_list::{Error, OptionPage};
pub use pages::page_after;
