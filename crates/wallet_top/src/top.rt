// The top call.
ghost use Rattle.std.specs.Prelude.{map, string_bytes};
ghost use Rattle.key_device.specs.Device.{DeviceState};
ghost use Rattle.outside.specs.Clock.{ClockState};
ghost use Rattle.program_steps.specs.Ends.{Ran};
ghost use Rattle.program_steps.specs.code.Endings.{ending, outcome};
ghost use Rattle.runs.specs.Runs.{Runs};
ghost use Rattle.runs.specs.World.{World};
ghost use Rattle.wallet_top.specs.Command.{tree_of, tree_of_words};
ghost use Rattle.wallet_top.specs.code.Commands.{meaning};

use super::command::{Command, read_command};
use super::listing::list_credentials;
use super::trying::try_query;
use outside::{Sink, Status, Store};
use program_steps::{Reply, Stop, close, finish};
use std::alloc::Global;

/// All that `vpwallet` does with the words after its name. Each file is read and looked at before the next,
/// and the text is written at once, at the end.
///
/// `list QUERY WALLET` prints, for each credential of the wallet file WALLET, from 0, `note N unreadable
/// RULE` where it cannot be read, or `match N` where its claim tree has hits for every claim of some claim
/// set of the query in the file QUERY; and then `end`, or `none` where nothing matches.
///
/// `try QUERY TREES` prints `match N` for each line of the file TREES, from 0, whose claim tree has hits for
/// every claim of some claim set of the query in the file QUERY, and then `end`; or `none` where there is no
/// such line.
///
/// It is given no device of keys and no clock: the contract holds beside any of these, which stay as they
/// are.
///
/// What follows of the contract, for every store and sink, stands in the laws of `program_steps`:
/// [`statuses_have_causes`](program_steps::statuses_have_causes): the status of a fault comes only where the
/// count of that object rose, for the store at a file that the command may ask for;
/// [`usage_is_no_command`](program_steps::usage_is_no_command): `Usage` comes exactly for words that are no
/// command, and then nothing is read; [`ends_complete`](program_steps::ends_complete): where no count rose
/// and memory did not run out, status, text and reads are those that the words and the told files determine,
/// and by [`passes_no_fault`] and [`asks_what_is_told`] it is enough that no fault is answered;
/// [`asks_in_order`](program_steps::asks_in_order): the objects are asked what the tree asks, in that order,
/// and nothing else, and the files stay as they are; [`counts_stay`](program_steps::counts_stay) with
/// [`passes_no_fault`]: no count falls, and none rose where no fault is answered.
pub fn run<S: Store, O: Sink>(alloc: Global, words: &[String], store: &mut S, out: &mut O) -> Status
    ensures { (device : DeviceState) (clock : ClockState) → Ran (tree_of_words (map string_bytes words.now))
        (record { store = S.state store.old; device = device; clock = clock; sink = O.state out.old })
        (record { store = S.state store.new; device = device; clock = clock; sink = O.state out.new })
        result }
{
    let Some(command) = read_command(words) else {
        return finish(out, Status::Usage, "usage\n");
    };
    let end = perform(alloc, command, store);
    close(out, &end)
}

// The reply to a command.
fn perform<S: Store>(alloc: Global, command: Command<'_>, store: &mut S) -> Result<Reply, Stop>
    ensures { (w : World) → Runs (tree_of (meaning command.entry)) (record w { store = S.state store.old })
        (record w { store = S.state store.new }) (ending outcome result) }
{
    match command {
        Command::Try { query, trees } => try_query(alloc, query, trees, store),
        Command::List { query, wallet } => list_credentials(alloc, query, wallet, store),
    }
}
