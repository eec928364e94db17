//! What `verifier_sessions` answers to lists of events: a reply a line.
//!
//! The standard input has an event a line, as `open 10 a x`, `post 309 a no` or `look 5 a`: what happens, a
//! moment in seconds, an id, and the nonce or the verdict. A line `new` begins a new table.
#![tactic(auto)]

mod answers;
mod line;
mod run;

use run::run;
use std::process::ExitCode;

fn main(rt: HostRuntime) -> ExitCode {
    ExitCode::from(run(rt.alloc(), &mut rt.stdin(), &mut rt.stdout()))
}
