// Answered sets in their order. A set is a number, bit i of which says whether credential query i is
// answered; its rank is the number of sets that come before it.
ghost use Rattle.std.specs.Prelude.{◌≡◌, ◌≤◌, ◌+◌, ◌<◌, ◌^◌, length, map, MatchOption};
ghost use Rattle.admitted_answers.specs.code.Search.{rank_of as rank_of_lists, set_at as set_at_rank};
ghost use Rattle.admitted_answers.specs.code.Search.{fitting as fitting_of};
ghost use Rattle.admitted_answers.specs.code.Sets.{IsFirstSet, IsNoSet};

use answered_sets::AnsweredSets;
use dcql_answers::{Fits, Pick};
use dcql_query::CredentialQuery;

// The rank of the set of those that have picks.
pub(crate) fn rank_of(lists: &[Vec<Pick>]) -> u32
    requires { length lists.now ≤ 16 }
    ensures rank { result ≡ rank_of_lists (map (λ ps. ps.items) lists.now) }
    ensures below { result < 2 ^ length lists.now }
{
    let Some((picks, rest)) = lists.split_first() else {
        return 0;
    };
    let behind = rank_of(rest);
    if picks.is_empty() {
        half_of(rest.len()) + behind
    } else {
        behind
    }
}

// How many sets of so many credential queries there are, which is half of those of one more.
fn half_of(others: usize) -> u32
    requires { others ≤ 16 }
    ensures { result ≡ 2 ^ others }
{
    1 << others
}

// The set of these credential queries that has this rank.
fn set_at(queries: &[CredentialQuery], rank: u32) -> u16
    requires { length queries.now ≤ 16 }
    ensures set { result ≡ set_at_rank queries.now rank }
    ensures below { result < 2 ^ length queries.now }
{
    let Some((_first, rest)) = queries.split_first() else {
        return 0;
    };
    let half = half_of(rest.len());
    if rank < half {
        1 + 2 * set_at(rest, rank)
    } else {
        2 * set_at(rest, rank - half)
    }
}

// The set of all credential queries that have a fit, the first of which is at place `query`.
pub(crate) fn fitting(fits: &Fits, query: usize, queries: &[CredentialQuery]) -> u16
    requires { query + length queries.now ≤ 16 }
    ensures set { result ≡ fitting_of fits.now query queries.now }
    ensures below { result < 2 ^ length queries.now }
{
    let Some((_first, rest)) = queries.split_first() else {
        return 0;
    };
    let higher = fitting(fits, query + 1, rest);
    if fits.least(query, 0, 0).is_some() {
        1 + 2 * higher
    } else {
        2 * higher
    }
}

// The first set from a rank on that may be answered and has only credential queries of `fitting`.
pub(crate) fn first_set(
    sets: &AnsweredSets,
    fitting: u16,
    queries: &[CredentialQuery],
    from: u32,
) -> Option<u16>
    requires { length queries.now ≤ 16 }
    ensures { MatchOption result (IsNoSet sets.now fitting queries.now from (2 ^ length queries.now))
        (IsFirstSet sets.now fitting queries.now from) }
{
    for rank in from..half_of(queries.len()) {
        let set = set_at(queries, rank);
        if sets.has(set) && set & fitting == set {
            return Some(set);
        }
    }
    None
}
