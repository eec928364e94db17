// The step from an answer to the next one, found with no memory.
ghost use Rattle.std.specs.Prelude.{◌≡◌, ◌≤◌, ◌^◌, [], option_map, length, MatchOption, Some, None};
ghost use Rattle.dcql_answers.specs.Answer.{answer_cmp};
ghost use Rattle.answered_sets.specs.Table.{Tells};
ghost use Rattle.admitted_answers.specs.Admits.{Admits};
ghost use Rattle.admitted_answers.specs.Least.{IsNextOf};
ghost use Rattle.admitted_answers.specs.code.Search.{fitting as fitting_of};
ghost use Rattle.admitted_answers.specs.code.Step.{reached};
ghost use Rattle.admitted_answers.specs.declared.steps.Step.TheVariants.{Onto};
ghost use Rattle.admitted_answers.specs.code.Sets.{IsFirstSet, IsNoSet};

use crate::lists::{Spot, later_lists};
use crate::sets::{first_set, fitting, rank_of};
use answered_sets::AnsweredSets;
use dcql_answers::{Answer, Fits};
use dcql_query::{CredentialQuery, Query};

// To the next lists of the same answered credential queries, or onto the least lists of another answered set.
#[derive(Clone, Copy, Drop)]
pub(crate) enum Step {
    Within(Spot),
    Onto(u16),
}

// The step to the least admitted answer.
pub(crate) fn first_step(query: &Query, fits: &Fits, sets: &AnsweredSets) -> Option<Step>
    requires { Tells query.now sets.now }
    ensures { let reach = reached fits.now (length query.now.credentials) [] in
        IsNextOf (Admits query.now fits.now) answer_cmp None (option_map reach result) }
{
    onto(open_set(query.credentials(), fits, sets, 0))
}

// The step to the next admitted answer.
pub(crate) fn step_after(
    query: &Query,
    fits: &Fits,
    sets: &AnsweredSets,
    after: &Answer,
) -> Option<Step>
    requires table { Tells query.now sets.now }
    requires admitted { Admits query.now fits.now after.now }
    ensures { let reach = reached fits.now (length query.now.credentials) after.now in
        IsNextOf (Admits query.now fits.now) answer_cmp (Some after.now) (option_map reach result) }
{
    let queries = query.credentials();
    let lists = after.lists();
    match later_lists(fits, 0, queries, lists) {
        Some(spot) => Some(Step::Within(spot)),
        None => onto(open_set(queries, fits, sets, rank_of(lists) + 1)),
    }
}

// The first set from a rank on that may be answered and has a fit for each of its credential queries.
fn open_set(queries: &[CredentialQuery], fits: &Fits, sets: &AnsweredSets, from: u32) -> Option<u16>
    requires { length queries.now ≤ 16 }
    ensures { let fit = fitting_of fits.now 0 queries.now in
        MatchOption result (IsNoSet sets.now fit queries.now from (2 ^ length queries.now))
        (IsFirstSet sets.now fit queries.now from) }
{
    first_set(sets, fitting(fits, 0, queries), queries, from)
}

fn onto(set: Option<u16>) -> Option<Step>
    ensures { result ≡ option_map Onto set }
{
    match set {
        Some(set) => Some(Step::Onto(set)),
        None => None,
    }
}
