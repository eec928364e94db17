// The file of a request.
ghost use Rattle.std.specs.Prelude.{string_bytes};
ghost use Rattle.options_files.specs.Reading.{read_request};
ghost use Rattle.program_steps.specs.code.Endings.{ending};
ghost use Rattle.runs.specs.Runs.{Runs};
ghost use Rattle.runs.specs.World.{World};

use crate::text::text_in;
use base_forms::LineError;
use outside::Store;
use program_steps::{FILE_LIMIT, Stop, read_file};
use std::alloc::Global;
use wallet_files::line_stop;

/// The text of a request file: all of it but the line feed at its end, if it has one.
///
/// # Errors
///
/// A refusal of a file that has more than [`FILE_LIMIT`] bytes, or, by its line 1, of one that is no UTF-8; a
/// fault of the store; out of memory.
pub fn read_request<S: Store>(alloc: Global, store: &mut S, name: &str) -> Result<String, Stop>
    ensures { (w : World) → Runs (read_request name.now) (record w { store = S.state store.old })
        (record w { store = S.state store.new }) (ending string_bytes result) }
{
    let bytes = read_file(alloc, store, name, FILE_LIMIT)?;
    match text_in(bytes) {
        Some(text) => Ok(text),
        None => Err(line_stop(alloc, name, LineError::Refused(1))),
    }
}
