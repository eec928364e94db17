// Pages of answers.
ghost use Rattle.std.specs.Prelude.{◌≡◌, ◌<◌, ◌≤◌, ◌↔◌, true, false, [], length, take, map, List, IfOk};
ghost use Rattle.std.specs.Prelude.{IfSome, option_map, Some, None, slice_get};
ghost use Rattle.std.specs.Option.{option_copied};
ghost use Rattle.dcql_answers.specs.declared.pick.Pick.{Pick};
ghost use Rattle.dcql_answers.specs.Answer.{answer_cmp};
ghost use Rattle.answered_sets.specs.Table.{Tells};
ghost use Rattle.admitted_answers.specs.Admits.{Admits};
ghost use Rattle.admitted_answers.specs.Least.{IsNextOf, AreNext, AreFollowing, IsLast, last_of};
ghost use Rattle.admitted_answers.specs.code.Step.{reached};

use crate::error::NoMemory;
use crate::make::{changed_answer, least_answer};
use crate::steps::{Step, first_step, step_after};
use answered_sets::AnsweredSets;
use dcql_answers::{Answer, Fits, Pick};
use dcql_query::Query;
use std::alloc::Global;
use std::marker::Model;

/// Some answers in their order. Contracts see the list of answers.
#[derive(Drop)]
pub struct Answers {
    answers: Vec<Answer>,
}

impl Model for Answers {
    ghost use Rattle.std.specs.Prelude.{List};
    ghost use Rattle.dcql_answers.specs.declared.pick.Pick.{Pick};

    ghost Value = { List (List (List Pick)) };

    ghost view = { λ a. a.answers.items };
}

impl Answers {
    /// How many answers there are.
    pub fn len(&self) -> usize
        ensures { result ≡ length self.now }
    {
        self.answers.len()
    }

    /// Answer `i`, counted from 0.
    pub fn at(&self, i: usize) -> &Answer
        requires { i < length self.now }
        ensures { slice_get self.now i ≡ Some result.now }
    {
        &self.answers[i]
    }
}

/// A page of answers, and whether no admitted answer follows the last of them.
#[derive(Drop)]
pub struct OptionPage {
    pub answers: Answers,
    pub end: bool,
}

/// The least admitted answer, or none where none is admitted.
///
/// # Errors
///
/// [`NoMemory`] where it is out of memory.
pub fn first(alloc: Global, query: &Query, fits: &Fits) -> Result<Option<Answer>, NoMemory>
    ensures { IfOk result (λ r. IsNextOf (Admits query.now fits.now) answer_cmp None r) }
{
    let sets = AnsweredSets::of(query);
    make_first(alloc, query, fits, first_step(query, fits, &sets))
}

/// The least admitted answer after an admitted one, or none where none is admitted after it.
///
/// # Errors
///
/// [`NoMemory`] where it is out of memory.
pub fn next(
    alloc: Global,
    query: &Query,
    fits: &Fits,
    after: &Answer,
) -> Result<Option<Answer>, NoMemory>
    requires { Admits query.now fits.now after.now }
    ensures { IfOk result (λ r. IsNextOf (Admits query.now fits.now) answer_cmp (Some after.now) r) }
{
    let sets = AnsweredSets::of(query);
    make_next(
        alloc,
        query,
        fits,
        after,
        step_after(query, fits, &sets, after),
    )
}

/// The admitted answers after an admitted one, or all where none is given, in their order, as many as there
/// are up to `count`.
///
/// # Errors
///
/// [`NoMemory`] where it is out of memory.
pub fn page(
    alloc: Global,
    query: &Query,
    fits: &Fits,
    after: Option<&Answer>,
    count: u32,
) -> Result<OptionPage, NoMemory>
    requires admitted { IfSome (option_copied after) (Admits query.now fits.now) }
    requires some { 0 < count }
    requires few { count ≤ 1000 }
    ensures next { let start = option_copied after.entry in
        IfOk result (λ p. AreNext (Admits query.now fits.now) answer_cmp start p.answers) }
    ensures within { IfOk result (λ p. length p.answers ≤ count) }
    ensures full { IfOk result (λ p. p.end ≡ false → length p.answers ≡ count) }
    ensures end { let start = option_copied after.entry in IfOk result (λ p. (p.end ≡ true) ↔
        IsLast (Admits query.now fits.now) answer_cmp (last_of start p.answers)) }
    ensures following { let start = option_copied after.entry in IfOk result (λ p.
        (all : List (List (List Pick))) → AreFollowing (Admits query.now fits.now) answer_cmp start all →
        (p.answers ≡ take count all) × ((p.end ≡ true) ↔ (length all ≤ count))) }
{
    let sets = AnsweredSets::of(query);
    let mut answers = Vec::new(alloc);
    for _i in 0..count {
        match next_of(alloc, query, fits, &sets, last(after, answers.as_slice()))? {
            Some(answer) => answers.push(answer)?,
            None => return Ok(page_of(answers, true)),
        }
    }
    let end = is_last(query, fits, &sets, last(after, answers.as_slice()));
    Ok(page_of(answers, end))
}

fn page_of(answers: Vec<Answer>, end: bool) -> OptionPage
    ensures answers { result.answers ≡ answers.items }
    ensures end { result.end ≡ end }
{
    OptionPage {
        answers: Answers { answers },
        end,
    }
}

// The last of the answers, or `after` where there is none.
fn last<'a>(after: Option<&'a Answer>, answers: &'a [Answer]) -> Option<&'a Answer>
    ensures { option_copied result ≡ last_of (option_copied after.entry) answers.now }
{
    match answers.last() {
        Some(answer) => Some(answer),
        None => after,
    }
}

// Whether no admitted answer follows, or there is none where nothing is given.
fn is_last(query: &Query, fits: &Fits, sets: &AnsweredSets, after: Option<&Answer>) -> bool
    requires table { Tells query.now sets.now }
    requires admitted { IfSome (option_copied after) (Admits query.now fits.now) }
    ensures { (result ≡ true) ↔ IsLast (Admits query.now fits.now) answer_cmp (option_copied after.entry) }
{
    match after {
        Some(answer) => step_after(query, fits, sets, answer).is_none(),
        None => first_step(query, fits, sets).is_none(),
    }
}

// The next admitted answer, or the least where nothing is given.
fn next_of(
    alloc: Global,
    query: &Query,
    fits: &Fits,
    sets: &AnsweredSets,
    after: Option<&Answer>,
) -> Result<Option<Answer>, NoMemory>
    requires table { Tells query.now sets.now }
    requires admitted { IfSome (option_copied after) (Admits query.now fits.now) }
    ensures { let start = option_copied after.entry in
        IfOk result (λ r. IsNextOf (Admits query.now fits.now) answer_cmp start r) }
{
    match after {
        Some(answer) => make_next(
            alloc,
            query,
            fits,
            answer,
            step_after(query, fits, sets, answer),
        ),
        None => make_first(alloc, query, fits, first_step(query, fits, sets)),
    }
}

fn make_first(
    alloc: Global,
    query: &Query,
    fits: &Fits,
    step: Option<Step>,
) -> Result<Option<Answer>, NoMemory>
    ensures { IfOk result (λ r. r ≡ option_map (reached fits.now (length query.now.credentials) []) step) }
{
    match step {
        Some(step) => Ok(Some(make(alloc, query, fits, &[], &step)?)),
        None => Ok(None),
    }
}

fn make_next(
    alloc: Global,
    query: &Query,
    fits: &Fits,
    after: &Answer,
    step: Option<Step>,
) -> Result<Option<Answer>, NoMemory>
    ensures { let reach = reached fits.now (length query.now.credentials) after.now in
        IfOk result (λ r. r ≡ option_map reach step) }
{
    match step {
        Some(step) => Ok(Some(make(alloc, query, fits, after.lists(), &step)?)),
        None => Ok(None),
    }
}

// The answer that a step leads to.
fn make(
    alloc: Global,
    query: &Query,
    fits: &Fits,
    lists: &[Vec<Pick>],
    step: &Step,
) -> Result<Answer, NoMemory>
    ensures { let before = map (λ ps. ps.items) lists.now in
        IfOk result (λ a. a ≡ reached fits.now (length query.now.credentials) before step.now) }
{
    match step {
        Step::Within(spot) => changed_answer(alloc, fits, lists, spot),
        Step::Onto(set) => least_answer(alloc, fits, query.len(), *set),
    }
}
