// The top call.
ghost use Rattle.std.specs.Prelude.{◌≡◌, IfOk, map, string_bytes};
ghost use Rattle.outside.specs.Clock.{ClockState};
ghost use Rattle.program_steps.specs.Ends.{Ran};
ghost use Rattle.program_steps.specs.code.Endings.{ending, outcome, StopsBy};
ghost use Rattle.runs.specs.Runs.{Runs};
ghost use Rattle.runs.specs.World.{World};
ghost use Rattle.bench_top.specs.Command.{tree_of_words, spec_tree, print_tree, refusal_line, spec_refused};
ghost use Rattle.bench_top.specs.code.Endings.{early};

use super::command::spec_named;
use super::error::Error;
use super::issuing::issue;
use key_device::KeyDevice;
use outside::{Sink, Status, Store};
use program_steps::{
    FILE_LIMIT, Reply, Stop, close, file_refused, finish, read_file, reply_of, reply_with_last,
    text_of,
};
use runs::Fault;
use std::alloc::{AllocError, Global};

/// All that `vpbench` does with the words after its name.
///
/// `issue SPEC` prints the credential file that the spec in the file SPEC asks for: an SD-JWT VC, or the
/// base64url of a mobile document. A spec that breaks a rule is answered with `spec refused` and the least of
/// them ([`issue`]), and one whose key the device does not hold with `key missing`.
///
/// It is given no clock: the contract holds beside any clock, which stays as it is.
///
/// What follows of the contract, for every store, sink and device, stands in the laws of `program_steps`, as
/// the docs of `wallet_top::run` tell; [`passes_no_fault`](crate::passes_no_fault) says that no fault is
/// passed over.
pub fn run<S: Store, O: Sink, K: KeyDevice>(
    alloc: Global,
    words: &[String],
    store: &mut S,
    out: &mut O,
    device: &mut K,
) -> Status
    ensures { (clock : ClockState)
        → Ran (tree_of_words (K.state device.old).held (map string_bytes words.now))
        (record {
          store = S.state store.old;
          device = K.state device.old;
          clock = clock;
          sink = O.state out.old;
        })
        (record {
          store = S.state store.new;
          device = K.state device.new;
          clock = clock;
          sink = O.state out.new;
        })
        result }
{
    let Some(name) = spec_named(words) else {
        return finish(out, Status::Usage, "usage\n");
    };
    let end = issue_file(alloc, name, store, device);
    close(out, &end)
}

// The reply to `issue` with this name of a spec's file.
fn issue_file<S: Store, K: KeyDevice>(
    alloc: Global,
    name: &str,
    store: &mut S,
    device: &mut K,
) -> Result<Reply, Stop>
    ensures { (w : World) → Runs (spec_tree (K.state device.old).held name.now)
        (record w { store = S.state store.old; device = K.state device.old })
        (record w { store = S.state store.new; device = K.state device.new }) (ending outcome result) }
{
    let bytes = read_file(alloc, store, name, FILE_LIMIT)?;
    match text_of(&bytes) {
        Some(spec) => issue_text(alloc, spec, device),
        None => Err(Stop::Refused(file_refused(alloc, name, 1)?)),
    }
}

// The reply to `issue` with this spec.
fn issue_text<K: KeyDevice>(alloc: Global, spec: &str, device: &mut K) -> Result<Reply, Stop>
    ensures { (w : World) → Runs (print_tree (K.state device.old).held spec.now)
        (record w { device = K.state device.old }) (record w { device = K.state device.new })
        (ending outcome result) }
{
    match issue(alloc, spec, device) {
        Ok(text) => Ok(reply_with_last(text, Status::Done, "\n")?),
        Err(error) => Err(stop_by(alloc, error)),
    }
}

// The end of the command where nothing is issued.
fn stop_by(alloc: Global, error: Error) -> Stop
    ensures { StopsBy refusal_line (early error) result }
{
    match error {
        Error::Refused(rule) => match spec_refused(alloc, rule) {
            Ok(reply) => Stop::Refused(reply),
            Err(_) => Stop::NoMemory,
        },
        Error::KeyMissing => match reply_of(alloc, Status::KeyMissing, "key missing\n") {
            Ok(reply) => Stop::Refused(reply),
            Err(_) => Stop::NoMemory,
        },
        Error::DeviceFault => Stop::Failed(Fault::Device),
        Error::NoMemory => Stop::NoMemory,
    }
}

// The spec breaks this rule.
fn spec_refused(alloc: Global, rule: u8) -> Result<Reply, AllocError>
    ensures { IfOk result (λ reply. outcome reply ≡ spec_refused rule) }
{
    Ok(Reply {
        status: Status::SpecRefused,
        text: format!(in alloc; "spec refused {rule}\n")?,
    })
}
