//! Which credentials may be presented for a credential query, and what is shown of them (OpenID4VP 1.0,
//! sections 6.1, 6.3 and 6.4.1).
//!
//! [`meets`] says whether a credential has what a claim set asks for, and [`meets_some`] whether it has what
//! some claim set asks for. [`shown_for`] gives the addresses of what a claim set asks for.
#![tactic(auto)]

mod addresses;
mod matching;

pub use addresses::shown_for;
pub use credential_query::NoMemory;
pub use matching::{meets, meets_some};
