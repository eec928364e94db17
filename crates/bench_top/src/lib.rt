//! The bench: all that the program `vpbench` does, over a store, a sink and a device of keys that are passed
//! in. It issues test credentials.
//!
//! A command is defined by its tree of questions in `specs/`; [`run`] says that it is run, and that its end
//! is written.
#![tactic(auto)]

mod command;
mod error;
mod issuing;
mod laws;
mod program;
mod top;

pub use error::Error;
pub use issuing::issue;
pub use laws::passes_no_fault;
pub use program::exit_code;
pub use top::run;
