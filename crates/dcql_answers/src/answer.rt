// Answers to a query.
ghost use Rattle.std.specs.Prelude.{◌≡◌, ◌<◌, ◌↔◌, map, length, slice_get, Some, IsTrue, if◌then◌else◌};
ghost use Rattle.std.specs.Cmp.Lexicographic.{slice_cmp};
ghost use Rattle.std.specs.declared.cmp.Ordering.TheVariants.{Less, Equal};
ghost use Rattle.dcql_answers.specs.Answer.{picks_cmp, answered, sets_cmp, Before};

use crate::pick::Pick;
use std::cmp::Ordering;
use std::marker::Model;

/// An answer: a list of picks for each credential query, none where it does not answer the query. Contracts
/// see the list of these lists.
#[derive(Drop)]
pub struct Answer {
    lists: Vec<Vec<Pick>>,
}

impl Model for Answer {
    ghost use Rattle.std.specs.Prelude.{List, map};
    ghost use Rattle.dcql_answers.specs.declared.pick.Pick.{Pick};

    ghost Value = { List (List Pick) };

    ghost view = { λ a. map (λ ps. ps.items) a.lists.items };
}

impl Answer {
    /// The answer of these lists, one for each credential query.
    pub fn from_lists(lists: Vec<Vec<Pick>>) -> Answer
        ensures { result ≡ map (λ ps. ps.items) lists.items }
    {
        Answer { lists }
    }

    /// Its lists of picks, one for each credential query.
    pub fn lists(&self) -> &[Vec<Pick>]
        ensures { map (λ ps. ps.items) result.now ≡ self.now }
    {
        self.lists.as_slice()
    }

    /// Its picks for a credential query, none where it does not answer it.
    pub fn picks(&self, query: usize) -> &[Pick]
        requires { query < length self.now }
        ensures { slice_get self.now query ≡ Some result.now }
    {
        self.lists[query].as_slice()
    }

    /// Whether it comes before the other. At the first credential query that one of them answers and the
    /// other does not, the one that answers it comes first. Where they answer the same, the first list that
    /// differs decides, pick by pick; a list comes before what extends it.
    pub fn before(&self, other: &Answer) -> bool
        requires { length self.now ≡ length other.now }
        ensures { IsTrue result ↔ Before self.now other.now }
    {
        match sets_order(self.lists(), other.lists()) {
            Ordering::Less => true,
            Ordering::Equal => lists_order(self.lists(), other.lists()) == Ordering::Less,
            Ordering::Greater => false,
        }
    }
}

fn sets_order(one: &[Vec<Pick>], other: &[Vec<Pick>]) -> Ordering
    ensures { result ≡ sets_cmp (answered (map (λ ps. ps.items) one.now)) (answered (map (λ ps.
        ps.items) other.now)) }
{
    let Some((first, rest)) = one.split_first() else {
        return none_left(other.is_empty());
    };
    let Some((second, others)) = other.split_first() else {
        return Ordering::Greater;
    };
    match first.is_empty().cmp(&second.is_empty()) {
        Ordering::Equal => sets_order(rest, others),
        order => order,
    }
}

fn none_left(other: bool) -> Ordering
    ensures { result ≡ (if other then Equal else Less) }
{
    if other {
        Ordering::Equal
    } else {
        Ordering::Less
    }
}

fn lists_order(one: &[Vec<Pick>], other: &[Vec<Pick>]) -> Ordering
    ensures { result ≡ slice_cmp picks_cmp (map (λ ps. ps.items) one.now) (map (λ ps.
        ps.items) other.now) }
{
    let Some((first, rest)) = one.split_first() else {
        return none_left(other.is_empty());
    };
    let Some((second, others)) = other.split_first() else {
        return Ordering::Greater;
    };
    match picks_order(first.as_slice(), second.as_slice()) {
        Ordering::Equal => lists_order(rest, others),
        order => order,
    }
}

fn picks_order(one: &[Pick], other: &[Pick]) -> Ordering
    ensures { result ≡ picks_cmp one.now other.now }
{
    let Some((first, rest)) = one.split_first() else {
        return none_left(other.is_empty());
    };
    let Some((second, others)) = other.split_first() else {
        return Ordering::Greater;
    };
    match first.order(second) {
        Ordering::Equal => picks_order(rest, others),
        order => order,
    }
}
