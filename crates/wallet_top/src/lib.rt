//! The wallet: all that the program `vpwallet` does, over a store and a sink that are passed in.
//!
//! A command is defined by its tree of questions in `specs/`; [`run`] says that it is run, and that its end
//! is written.
#![tactic(auto)]

mod command;
mod laws;
mod listing;
mod program;
mod top;
mod trying;

pub use laws::{asks_what_is_told, passes_no_fault, signs_nothing};
pub use program::exit_code;
pub use top::run;
