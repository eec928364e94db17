//! The credentials of a wallet, and which of them may be presented for which credential query of a query
//! (OpenID4VP 1.0, section 6).
//!
//! A [`Wallet`] has slots, in each of which a credential was read or was not. [`fill`] gives the fits of a
//! query: which credential meets which credential query under which claim set, and is usable for it.
#![tactic(auto)]

mod credential;
mod error;
mod fits;
mod wallet;

pub use credential::Credential;
pub use error::NoMemory;
pub use fits::fill;
pub use wallet::{Slot, Wallet};
