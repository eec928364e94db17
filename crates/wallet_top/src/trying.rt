// The command `try`: which lines of a file match a query of one credential.
ghost use Rattle.std.specs.Prelude.{◌≡◌, IfOk, string_bytes};
ghost use Rattle.dcql_query.specs.Meaning.{query_of};
ghost use Rattle.program_steps.specs.code.Endings.{ending, outcome};
ghost use Rattle.runs.specs.Runs.{Runs};
ghost use Rattle.runs.specs.World.{World};
ghost use Rattle.serde_json.specs.View.{view};
ghost use Rattle.wallet_top.specs.Try.{try_lines, try_tree};
ghost use Rattle.wallet_top.specs.code.Matches.{ended};

use outside::{Status, Store};
use program_steps::{Reply, Stop, read_file, reply_of, reply_with_last};
use serde_json::Value;
use std::alloc::{AllocError, Global};
use wallet_files::{FILE_LIMIT, line_stop, matches_in, only, query_by, query_refusal, read_query};

/// The reply to `try` with these names of a query file and a trees file.
///
/// # Errors
///
/// A refusal of a file or of the query; a fault of the store; out of memory.
pub fn try_query<S: Store>(
    alloc: Global,
    query: &str,
    trees: &str,
    store: &mut S,
) -> Result<Reply, Stop>
    ensures { (w : World) → Runs (try_tree query.now trees.now) (record w { store = S.state store.old })
        (record w { store = S.state store.new }) (ending outcome result) }
{
    let value = read_query(alloc, store, query)?;
    let bytes = read_file(alloc, store, trees, FILE_LIMIT)?;
    try_lines(alloc, trees, &value, &bytes)
}

// The reply to the lines of the trees file.
fn try_lines(alloc: Global, trees: &str, value: &Value, bytes: &[u8]) -> Result<Reply, Stop>
    ensures { (w : World) → Runs (try_lines trees.now (query_of (view value.now)) bytes.now) w w
        (ending outcome result) }
{
    let query = query_by(alloc, value)?;
    match matches_in(alloc, bytes, only(&query)) {
        Ok(found) => match query_refusal(alloc, &query)? {
            Some(refusal) => Err(Stop::Refused(refusal)),
            None => Ok(all_matches(alloc, found)?),
        },
        Err(error) => Err(line_stop(alloc, trees, error)),
    }
}

// The answer where these are the lines of matches.
fn all_matches(alloc: Global, matches: String) -> Result<Reply, AllocError>
    ensures { IfOk result (λ reply. outcome reply ≡ ended (string_bytes matches)) }
{
    if matches.is_empty() {
        return reply_of(alloc, Status::NoOption, "none\n");
    }
    reply_with_last(matches, Status::Done, "end\n")
}
