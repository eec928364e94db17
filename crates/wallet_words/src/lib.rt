//! The words that `vpwallet` is called with.
//!
//! [`read_command`] reads them by a command line parser of the crate `clap`. A command that is added is a
//! parser beside the others, a variant of [`Command`] and the values that it reads.
#![tactic(auto)]

mod command;
mod count;
mod error;
mod laws;
mod parser;

pub use command::{Command, read_command};
pub use error::NoMemory;
pub use laws::{counts_are_decimals, examples_hold, plain_words_are_read};
