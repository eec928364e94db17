// The next list of picks for one credential query.
ghost use Rattle.std.specs.Prelude.{◌≡◌, ◌≤◌, ◌+◌, length, IfSome, option_map};
ghost use Rattle.admitted_answers.specs.code.Search.{later_picks as later_picks_of, put_at};

use dcql_answers::{Fits, Pick};

// How a list of picks is changed: so many are kept from its front, and one more is put after them.
#[derive(Clone, Copy, Drop)]
pub(crate) struct Change {
    pub(crate) kept: usize,
    pub(crate) pick: Pick,
}

// The change to the next list whose credentials are not before `from`: the least extension, else the follower
// of the last pick, else that of the one before it.
pub(crate) fn later_picks(
    fits: &Fits,
    query: usize,
    multiple: bool,
    from: u32,
    picks: &[Pick],
) -> Option<Change>
    ensures change { result ≡ later_picks_of fits.now query multiple from picks.now }
    ensures within { IfSome result (λ c. c.kept ≤ length picks.now) }
{
    let Some((first, rest)) = picks.split_first() else {
        return put_first(fits.least(query, from, 0));
    };
    let deeper = if multiple {
        later_picks(fits, query, multiple, first.credential as u32 + 1, rest)
    } else {
        None
    };
    match deeper {
        Some(change) => Some(Change {
            kept: change.kept + 1,
            pick: change.pick,
        }),
        None => put_first(fits.least(query, first.credential as u32, first.set as u32 + 1)),
    }
}

fn put_first(pick: Option<Pick>) -> Option<Change>
    ensures change { result ≡ option_map (put_at 0) pick }
    ensures within { IfSome result (λ c. c.kept ≡ 0) }
{
    match pick {
        Some(pick) => Some(Change { kept: 0, pick }),
        None => None,
    }
}
