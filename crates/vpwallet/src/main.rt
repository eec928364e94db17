//! The program `vpwallet`: the wallet over the files of the system and the standard output.
#![tactic(auto)]

use outside::{FileStore, OutSink};
use std::env;
use std::process::ExitCode;
use wallet_top::exit_code;

fn main(rt: HostRuntime) -> ExitCode {
    exit_code(
        rt.alloc(),
        env::args(&rt),
        &mut FileStore::new(rt),
        &mut OutSink::new(rt),
    )
}
