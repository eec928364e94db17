// All the files, in their order.
ghost use Rattle.options_files.specs.Reading.{read_files};
ghost use Rattle.options_files.specs.code.MeantFiles.{meant_files};
ghost use Rattle.program_steps.specs.code.Endings.{ending};
ghost use Rattle.runs.specs.Runs.{Runs};
ghost use Rattle.runs.specs.World.{World};

use crate::clients::read_clients;
use crate::credentials::{CredentialFiles, read_credentials};
use crate::request::read_request;
use outside::Store;
use program_steps::Stop;
use request_clients::Clients;
use std::alloc::Global;

/// The names of the files.
#[derive(Clone, Copy)]
pub struct FileNames<'a> {
    pub request: &'a str,
    pub clients: &'a str,
    pub wallet: &'a str,
}

/// What the files hold.
#[derive(Drop)]
pub struct Files {
    pub request: String,
    pub clients: Clients,
    pub credentials: CredentialFiles,
}

/// Reads the files: the request, the clients, the wallet file, and then each credential file in the order of
/// the wallet file.
///
/// # Errors
///
/// The first refusal of [`read_request`], [`read_clients`] and [`read_credentials`], in this order; a fault
/// of the store; out of memory.
pub fn read_files<S: Store>(
    alloc: Global,
    store: &mut S,
    names: FileNames<'_>,
) -> Result<Files, Stop>
    ensures { (w : World) → Runs
        (read_files names.entry.request.now names.entry.clients.now names.entry.wallet.now)
        (record w { store = S.state store.old }) (record w { store = S.state store.new })
        (ending meant_files result) }
{
    let request = read_request(alloc, store, names.request)?;
    let clients = read_clients(alloc, store, names.clients)?;
    let credentials = read_credentials(alloc, store, names.wallet)?;
    Ok(Files {
        request,
        clients,
        credentials,
    })
}
