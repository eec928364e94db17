// The end of a command by a bad line of a file.
ghost use Rattle.wallet_files.specs.code.LineStops.{IsLineStop};

use base_forms::LineError;
use program_steps::{Stop, file_refused};
use std::alloc::Global;

/// Ends the command with a refusal of the file of this name, by its bad line.
pub fn line_stop(alloc: Global, name: &str, error: LineError) -> Stop
    ensures { IsLineStop name.now error result }
{
    match error {
        LineError::Refused(number) => match file_refused(alloc, name, number) {
            Ok(reply) => Stop::Refused(reply),
            Err(_) => Stop::NoMemory,
        },
        LineError::NoMemory => Stop::NoMemory,
    }
}
