// Answers, made from a step.
ghost use Rattle.std.specs.Prelude.{◌≡◌, ◌≤◌, map, length, take, IfOk};
ghost use Rattle.admitted_answers.specs.code.Search.{least_list as least_list_of, changed as changed_by};
ghost use Rattle.admitted_answers.specs.code.Search.{part as part_of, parts_from, lists_of};

use crate::error::NoMemory;
use crate::lists::Spot;
use crate::picks::Change;
use dcql_answers::{Answer, Fits, Pick};
use std::alloc::{AllocError, Global};

// The least lists of the credential queries of a set, of which there are `count` in all.
pub(crate) fn least_answer(
    alloc: Global,
    fits: &Fits,
    count: usize,
    set: u16,
) -> Result<Answer, NoMemory>
    ensures { IfOk result (λ a. a ≡ lists_of fits.now 0 count set) }
{
    let mut lists = Vec::new(alloc);
    let mut rest = set;
    for query in 0..count {
        lists.push(least_list(alloc, fits, query, rest % 2 == 1)?)?;
        rest /= 2;
    }
    Ok(Answer::from_lists(lists))
}

// The lists that a change at a spot leads to.
pub(crate) fn changed_answer(
    alloc: Global,
    fits: &Fits,
    lists: &[Vec<Pick>],
    spot: &Spot,
) -> Result<Answer, NoMemory>
    ensures { IfOk result (λ a. a ≡ parts_from fits.now 0 spot.now (map (λ ps. ps.items) lists.now)) }
{
    let mut parts = Vec::new(alloc);
    for query in 0..lists.len() {
        parts.push(part(alloc, fits, query, spot, lists[query].as_slice())?)?;
    }
    Ok(Answer::from_lists(parts))
}

fn part(
    alloc: Global,
    fits: &Fits,
    query: usize,
    spot: &Spot,
    picks: &[Pick],
) -> Result<Vec<Pick>, NoMemory>
    ensures { IfOk result (λ v. v.items ≡ part_of fits.now query spot.now picks.now) }
{
    if query < spot.query {
        Ok(Vec::from_slice(alloc, picks)?)
    } else if query == spot.query {
        changed(alloc, picks, &spot.change)
    } else {
        least_list(alloc, fits, query, !picks.is_empty())
    }
}

fn changed(alloc: Global, picks: &[Pick], change: &Change) -> Result<Vec<Pick>, NoMemory>
    ensures { IfOk result (λ v. v.items ≡ changed_by picks.now change.now) }
{
    let mut next = front_of(alloc, picks, change.kept)?;
    next.push(change.pick)?;
    Ok(next)
}

fn front_of(alloc: Global, picks: &[Pick], kept: usize) -> Result<Vec<Pick>, AllocError>
    ensures { IfOk result (λ v. v.items ≡ take kept picks.now) }
{
    picks.iter().take(kept).copied().collect(alloc)
}

// The least list of a credential query, which has no pick where it is not answered.
fn least_list(
    alloc: Global,
    fits: &Fits,
    query: usize,
    answered: bool,
) -> Result<Vec<Pick>, NoMemory>
    ensures { IfOk result (λ v. v.items ≡ least_list_of fits.now query answered) }
{
    let mut list = Vec::new(alloc);
    if answered {
        if let Some(pick) = fits.least(query, 0, 0) {
            list.push(pick)?;
        }
    }
    Ok(list)
}
