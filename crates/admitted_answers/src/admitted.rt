// Whether an answer is admitted.
ghost use Rattle.std.specs.Prelude.{◌≡◌, ◌≤◌, ◌<◌, ◌+◌, ◌^◌, ◌↔◌, true, map, length, IsTrue};
ghost use Rattle.std.specs.Option.{option_copied};
ghost use Rattle.dcql_answers.specs.Answer.{answered};
ghost use Rattle.admitted_answers.specs.Admits.{Admits, bits_of};
ghost use Rattle.admitted_answers.specs.code.Tested.{is_same as is_same_pick, is_list as is_list_of};
ghost use Rattle.admitted_answers.specs.code.Tested.{are_lists as are_lists_of};

use answered_sets::AnsweredSets;
use dcql_answers::{Answer, Fits, Pick};
use dcql_query::{CredentialQuery, Query};

/// Whether a query and fits admit an answer: it has a list of picks for each credential query, each of which
/// ascends, has each credential at most once, and one pick at most unless the credential query takes several;
/// each pick fits; and the credential queries that have picks may be answered together. It takes no memory.
pub fn is_admitted(query: &Query, fits: &Fits, answer: &Answer) -> bool
    ensures { IsTrue result ↔ Admits query.now fits.now answer.now }
{
    let lists = answer.lists();
    if are_lists(fits, 0, query.credentials(), lists) {
        AnsweredSets::of(query).has(set_of(lists))
    } else {
        false
    }
}

// The set of the credential queries that have picks.
fn set_of(lists: &[Vec<Pick>]) -> u16
    requires { length lists.now ≤ 16 }
    ensures set { result ≡ bits_of (answered (map (λ ps. ps.items) lists.now)) }
    ensures below { result < 2 ^ length lists.now }
{
    let Some((picks, rest)) = lists.split_first() else {
        return 0;
    };
    let higher = set_of(rest);
    if picks.is_empty() {
        2 * higher
    } else {
        1 + 2 * higher
    }
}

fn are_lists(fits: &Fits, query: usize, queries: &[CredentialQuery], lists: &[Vec<Pick>]) -> bool
    requires { query + length queries.now ≤ 16 }
    ensures tested { result ≡ are_lists_of fits.now query queries.now (map (λ ps. ps.items) lists.now) }
    ensures long { result ≡ true → length lists.now ≡ length queries.now }
{
    let Some((first, others)) = queries.split_first() else {
        return lists.is_empty();
    };
    let Some((picks, rest)) = lists.split_first() else {
        return false;
    };
    is_list(fits, query, first.multiple(), 0, picks.as_slice())
        && are_lists(fits, query + 1, others, rest)
}

fn is_list(fits: &Fits, query: usize, multiple: bool, from: u32, picks: &[Pick]) -> bool
    ensures { result ≡ is_list_of fits.now query multiple from picks.now }
{
    let Some((first, rest)) = picks.split_first() else {
        return true;
    };
    let credential = first.credential as u32;
    let found = fits.least(query, credential, first.set as u32);
    is_same(first, found)
        && from <= credential
        && (multiple || rest.is_empty())
        && is_list(fits, query, multiple, credential + 1, rest)
}

fn is_same(pick: &Pick, found: Option<Pick>) -> bool
    ensures { result ≡ is_same_pick pick.now found }
{
    match found {
        Some(other) => other.credential == pick.credential && other.set == pick.set,
        None => false,
    }
}
