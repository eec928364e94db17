// Whether presentations are enough for a query.
ghost use Rattle.std.specs.Prelude.{◌≡◌, ◌↔◌, IsTrue};
ghost use Rattle.std.specs.List.{list_any};
ghost use Rattle.dcql_query.specs.Satisfied.{IsSatisfiedBy};
ghost use Rattle.dcql_query.specs.code.Covered.{covers, is_set_met, are_met};

use crate::query::{CredentialSet, Query};

impl Query {
    /// Whether presentations for these credential queries are enough, where bit i of `present` stands for
    /// credential query i: for all of them where there are no credential sets, else for all that one option
    /// names, of each credential set that is to be answered. Bits past the last credential query are passed
    /// over. It takes no memory.
    pub fn satisfied(&self, present: u16) -> bool
        ensures { IsTrue result ↔ IsSatisfiedBy self.now present }
    {
        let all = self.all();
        match &self.sets {
            Some(sets) => are_met(sets, present),
            None => covers(present, all),
        }
    }
}

fn are_met(sets: &[CredentialSet], present: u16) -> bool
    ensures { result ≡ are_met present sets.now }
{
    sets.iter().all(|set| is_met(set, present))
}

fn is_met(set: &CredentialSet, present: u16) -> bool
    ensures { result ≡ is_set_met present set.now }
{
    !set.required || is_one_met(&set.options, present)
}

fn is_one_met(options: &[u16], present: u16) -> bool
    ensures { result ≡ list_any (covers present) options.now }
{
    options.iter().any(|option| covers(present, *option))
}

fn covers(present: u16, wanted: u16) -> bool
    ensures { result ≡ covers present wanted }
{
    wanted & present == wanted
}
