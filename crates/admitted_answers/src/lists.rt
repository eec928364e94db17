// The next lists of picks for the same answered credential queries.
ghost use Rattle.std.specs.Prelude.{◌≡◌, ◌≤◌, ◌+◌, length, map, option_map, None, if◌then◌else◌};
ghost use Rattle.dcql_answers.specs.Answer.{is_answered};
ghost use Rattle.admitted_answers.specs.code.Search.{later_lists as later_lists_of, later_picks, at_query};

use crate::picks::{Change, later_picks};
use dcql_answers::{Fits, Pick};
use dcql_query::CredentialQuery;

// Where an answer changes: the lists before this credential query are kept, and those after it are the least.
#[derive(Clone, Copy, Drop)]
pub(crate) struct Spot {
    pub(crate) query: usize,
    pub(crate) change: Change,
}

// The last credential query whose picks have a next list, and the change to it.
pub(crate) fn later_lists(
    fits: &Fits,
    query: usize,
    queries: &[CredentialQuery],
    lists: &[Vec<Pick>],
) -> Option<Spot>
    requires { query + length queries.now ≤ 16 }
    ensures { result ≡ later_lists_of fits.now query queries.now (map (λ ps. ps.items) lists.now) }
{
    let Some((first, others)) = queries.split_first() else {
        return None;
    };
    let Some((picks, rest)) = lists.split_first() else {
        return None;
    };
    match later_lists(fits, query + 1, others, rest) {
        Some(spot) => Some(spot),
        None => at_query(
            query,
            later_answered(fits, query, first.multiple(), picks.as_slice()),
        ),
    }
}

// The change where the credential query is answered.
fn later_answered(fits: &Fits, query: usize, multiple: bool, picks: &[Pick]) -> Option<Change>
    ensures { let later = later_picks fits.now query multiple 0 picks.now in
        result ≡ (if is_answered picks.now then later else None) }
{
    if picks.is_empty() {
        None
    } else {
        later_picks(fits, query, multiple, 0, picks)
    }
}

fn at_query(query: usize, change: Option<Change>) -> Option<Spot>
    ensures { result ≡ option_map (at_query query) change }
{
    match change {
        Some(change) => Some(Spot { query, change }),
        None => None,
    }
}
