//! What `request_object` answers to requests: a line for each.
//!
//! The standard input has the lines of a keys file, an empty line, the lines of a clients file, an empty
//! line, and then a request a line, an object or a link. It prints `asked`, the number of credential queries,
//! the client, the nonce, the response address and the state, or `refused` with the rule and the rule within
//! it, or `device fault`.
#![tactic(auto)]

mod answers;
mod run;

use run::run;
use std::process::ExitCode;

fn main(rt: HostRuntime) -> ExitCode {
    ExitCode::from(run(rt.alloc(), &mut rt.stdin(), &mut rt.stdout()))
}
