// The command.
ghost use Rattle.std.specs.Prelude.{◌<◌, ◌≤◌};
ghost use Rattle.options_files.specs.code.MeantFiles.{meant_files};
ghost use Rattle.program_steps.specs.code.Endings.{ending, outcome};
ghost use Rattle.runs.specs.Runs.{Runs};
ghost use Rattle.runs.specs.World.{World};
ghost use Rattle.wallet_answers.specs.Listing.{Listing};
ghost use Rattle.wallet_options.specs.Options.{judged_tree, moment_tree, options_tree};
ghost use Rattle.wallet_options.specs.code.AskedFor.{meant};

use crate::asked::Asked;
use crate::page::page_reply;
use crate::refusals::stop_by;
use key_device::KeyDevice;
use options_files::{FileNames, Files, read_files};
use outside::{Clock, Failed, Store};
use program_steps::{Reply, Stop};
use request_object::Request;
use runs::Fault;
use std::alloc::Global;

/// The reply to `options`: the notes on the credentials of the wallet, and a page of the answers. The files are
/// read first, then the clock is asked, once, and then the device about the request's signature, once. The
/// count is from 1 to 1,000.
///
/// # Errors
///
/// A refusal of a file; of the request, by the rules of [`Request::read`]; of the token, by those of
/// `option_list::read_token`. A fault of the store, the clock or the device; out of memory.
pub fn list_options<S: Store, K: KeyDevice, C: Clock>(
    alloc: Global,
    asked: Asked<'_>,
    store: &mut S,
    device: &mut K,
    clock: &mut C,
) -> Result<Reply, Stop>
    requires some { 0 < asked.count }
    requires few { asked.count ≤ 1000 }
    ensures { (listing : Listing) (w : World)
        → Runs (options_tree listing (K.state device.old).held (meant asked.entry))
        (record w { store = S.state store.old; device = K.state device.old; clock = C.state clock.old })
        (record w { store = S.state store.new; device = K.state device.new; clock = C.state clock.new })
        (ending outcome result) }
{
    let names = FileNames {
        request: asked.request,
        clients: asked.clients,
        wallet: asked.wallet,
    };
    let files = read_files(alloc, store, names)?;
    let now = moment(clock)?;
    judged(alloc, asked, &files, now, device)
}

// The time that the clock gives.
fn moment<C: Clock>(clock: &mut C) -> Result<u64, Stop>
    ensures { (w : World) → Runs moment_tree (record w { clock = C.state clock.old })
        (record w { clock = C.state clock.new }) (ending (λ now. now) result) }
{
    match clock.now() {
        Ok(now) => Ok(now),
        Err(Failed) => Err(Stop::Failed(Fault::Clock)),
    }
}

// The reply where the files hold this, at this second.
fn judged<K: KeyDevice>(
    alloc: Global,
    asked: Asked<'_>,
    files: &Files,
    now: u64,
    device: &mut K,
) -> Result<Reply, Stop>
    requires some { 0 < asked.count }
    requires few { asked.count ≤ 1000 }
    ensures { (listing : Listing) (w : World)
        → Runs (judged_tree listing (K.state device.old).held (meant asked.entry) (meant_files files.now) now)
        (record w { device = K.state device.old }) (record w { device = K.state device.new })
        (ending outcome result) }
{
    match Request::read(alloc, files.request.as_str(), &files.clients, device) {
        Ok(request) => page_reply(
            alloc,
            asked,
            request.asked().query,
            &files.credentials,
            now,
            device,
        ),
        Err(error) => Err(stop_by(alloc, error)),
    }
}
