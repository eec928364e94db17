//! The clients that a wallet knows, read from a text with a client a line.
//!
//! [`Clients::read`] refuses a text by the number of its first line that is not of the form.
//! [`Clients::key_of`] is the name of a client's key.
#![tactic(auto)]

mod clients;
mod error;
mod read;

pub use clients::Clients;
pub use error::Error;
