// A table with a bit for each set of credential queries.
ghost use Rattle.std.specs.Prelude.{◌≡◌, ◌<◌, ◌==◌, ◌||◌, ◌^◌, ◌⊎◌, ◌↔◌, ℕ, true, length, replicate};
ghost use Rattle.dcql_query.specs.Query.{sets_in, credential_set_at};
ghost use Rattle.answered_sets.specs.Answered.{IsUnion};
ghost use Rattle.answered_sets.specs.Table.{holds, Tells, is_in};
ghost use Rattle.answered_sets.specs.code.Steps.{Joins, Chooses, Goes};

use dcql_query::Query;
use std::marker::Model;

/// The sets of credential queries that may be answered together. A set is a number, bit i of which stands for
/// credential query i; contracts see a list of words that has one bit for each number below 65,536.
#[derive(Drop)]
pub struct AnsweredSets {
    words: [u64; 1024],
}

impl Model for AnsweredSets {
    ghost use Rattle.std.specs.Prelude.{ℕ, List, length, ◌≡◌};

    ghost Value = { List ℕ };

    ghost view = { λ t. t.words };

    ghost invariant = { λ t. length t.words ≡ 1024 };
}

impl AnsweredSets {
    /// Those of a query, of which none is empty: all its credential queries where it has no credential sets,
    /// else each union of one option of every credential set that is to be answered, and of one or none of
    /// every other.
    pub fn of(query: &Query) -> AnsweredSets
        ensures { Tells query.now result }
    {
        if query.sets() == 0 {
            AnsweredSets::only(query.all())
        } else {
            unions(query)
        }
    }

    /// Whether the credential queries of this set may be answered together.
    pub fn has(&self, set: u16) -> bool
        ensures { result ≡ holds self.now set }
    {
        set != 0 && self.is_in(set)
    }

    fn is_in(&self, set: u16) -> bool
        ensures { result ≡ is_in self.now set }
    {
        let word = self.words[set as usize / 64];
        (word >> (set as u32 % 64)) & 1 == 1
    }

    fn none() -> AnsweredSets
        ensures { result ≡ replicate 1024 0 }
    {
        AnsweredSets { words: [0; 1024] }
    }

    fn only(set: u16) -> AnsweredSets
        ensures { (a : ℕ) → a < 2 ^ 16 → is_in result a ≡ (a == set) }
    {
        let mut sets = AnsweredSets::none();
        sets.put(set);
        sets
    }

    fn put(&mut self, set: u16)
        ensures { (a : ℕ) → a < 2 ^ 16 → is_in self.new a ≡ (a == set || is_in self.old a) }
    {
        let place = set as usize / 64;
        let word = self.words[place];
        self.words[place] = word | 1 << (set as u32 % 64);
    }

    // Puts the unions of `before` with each option of a credential set.
    fn put_joined(&mut self, before: u16, query: &Query, set: usize)
        requires { set < length (sets_in query.now) }
        ensures { (a : ℕ) → a < 2 ^ 16 → (is_in self.new a ≡ true) ↔ ((is_in self.old a ≡ true) ⊎
            Joins (credential_set_at query.now set).options before a) }
    {
        for option in 0..query.options(set) {
            self.put(before | query.option(set, option));
        }
    }

    // Puts the unions of `before` with each choice from a credential set.
    fn put_choices(&mut self, before: u16, query: &Query, set: usize)
        requires { set < length (sets_in query.now) }
        ensures { (a : ℕ) → a < 2 ^ 16 → (is_in self.new a ≡ true) ↔ ((is_in self.old a ≡ true) ⊎
            Chooses (credential_set_at query.now set) before a) }
    {
        if !query.required(set) {
            self.put(before);
        }
        self.put_joined(before, query, set);
    }
}

// The unions of a choice from the credential sets.
fn unions(query: &Query) -> AnsweredSets
    ensures { (a : ℕ) → a < 2 ^ 16 → (is_in result a ≡ true) ↔ IsUnion (sets_in query.now) a }
{
    let mut reached = AnsweredSets::only(0);
    for set in 0..query.sets() {
        reached = joined(&reached, query, set);
    }
    reached
}

// What is reached by one more credential set.
fn joined(reached: &AnsweredSets, query: &Query, set: usize) -> AnsweredSets
    requires { set < length (sets_in query.now) }
    ensures { (a : ℕ) → a < 2 ^ 16 → (is_in result a ≡ true) ↔
        Goes reached.now (credential_set_at query.now set) (2 ^ 16) a }
{
    let mut next = AnsweredSets::none();
    for place in 0..65536u32 {
        let before = place as u16;
        if reached.is_in(before) {
            next.put_choices(before, query, set);
        }
    }
    next
}
