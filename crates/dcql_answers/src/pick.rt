// One credential of an answer.
ghost use Rattle.std.specs.Prelude.{◌≡◌};
ghost use Rattle.dcql_answers.specs.Answer.{pick_cmp};

use std::cmp::Ordering;

/// A credential that is presented, under one of the claim sets of its credential query: the places of both,
/// from 0.
#[derive(Clone, Copy, PartialEq, Eq, Debug, Drop)]
pub struct Pick {
    pub credential: u16,
    pub set: u16,
}

impl Pick {
    /// By credential, then by claim set.
    pub fn order(&self, other: &Pick) -> Ordering
        ensures { result ≡ pick_cmp self.now other.now }
    {
        match self.credential.cmp(&other.credential) {
            Ordering::Equal => self.set.cmp(&other.set),
            order => order,
        }
    }
}
