//! The program `cbor_check`: whether `cbor_core` reads bytes. For each line of hexadecimal on the standard
//! input it prints `read` where the bytes are one CBOR item, and otherwise the number of the rule that they
//! break. For any other line it prints `no hexadecimal`.
//!
//! At most 32 lists, maps and tags may stand inside one another.
#![tactic(auto)]

mod answers;
mod run;
mod verdict;

use run::run;
use std::process::ExitCode;

fn main(rt: HostRuntime) -> ExitCode {
    ExitCode::from(run(rt.alloc(), &mut rt.stdin(), &mut rt.stdout()))
}
