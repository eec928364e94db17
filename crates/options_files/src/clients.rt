// The file of the clients that the wallet knows.
ghost use Rattle.std.specs.Prelude.{◌≡◌, Ok, IfOk, IfErr};
ghost use Rattle.options_files.specs.Reading.{clients_of_file, read_clients};
ghost use Rattle.options_files.specs.code.LineErrors.{IsBadLine, line_error};
ghost use Rattle.program_steps.specs.code.Endings.{ending};
ghost use Rattle.runs.specs.Runs.{Runs};
ghost use Rattle.runs.specs.World.{World};

use base_forms::LineError;
use outside::Store;
use program_steps::{FILE_LIMIT, Stop, read_file, text_of};
use request_clients::{Clients, Error};
use std::alloc::Global;
use wallet_files::line_stop;

/// The clients of a clients file.
///
/// # Errors
///
/// A refusal of a file that has more than [`FILE_LIMIT`] bytes, or by the first line that [`Clients::read`]
/// refuses, or by line 1 where the file is no UTF-8; a fault of the store; out of memory.
pub fn read_clients<S: Store>(alloc: Global, store: &mut S, name: &str) -> Result<Clients, Stop>
    ensures { (w : World) → Runs (read_clients name.now) (record w { store = S.state store.old })
        (record w { store = S.state store.new }) (ending (λ clients. clients) result) }
{
    let bytes = read_file(alloc, store, name, FILE_LIMIT)?;
    match clients_in(alloc, &bytes) {
        Ok(clients) => Ok(clients),
        Err(error) => Err(line_stop(alloc, name, error)),
    }
}

// The clients of a file with these bytes.
fn clients_in(alloc: Global, bytes: &[u8]) -> Result<Clients, LineError>
    ensures clients { IfOk result (λ clients. clients_of_file bytes.now ≡ Ok clients) }
    ensures refused { IfErr result (λ error. IsBadLine (clients_of_file bytes.now) error) }
{
    let Some(text) = text_of(bytes) else {
        return Err(LineError::Refused(1));
    };
    match Clients::read(alloc, text) {
        Ok(clients) => Ok(clients),
        Err(error) => Err(line_error(error)),
    }
}

fn line_error(error: Error) -> LineError
    ensures { result ≡ line_error error }
{
    match error {
        Error::Line(number) => LineError::Refused(u64::from(number)),
        Error::NoMemory => LineError::NoMemory,
    }
}
