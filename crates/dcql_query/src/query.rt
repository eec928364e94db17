// What a query asks for.
ghost use Rattle.std.specs.Prelude.{◌≡◌, ◌-◌, ◌<◌, ◌≤◌, ◌^◌, length, slice_get, slice_index, Some};
ghost use Rattle.dcql_query.specs.Query.{query_from, sets_in, credential_set_at};
ghost use Rattle.dcql_query.specs.WellFormed.{IsQuery};

use credential_query::CredentialQuery;
use std::marker::Model;

/// A set of credential queries that belong together, as options of which one is to be answered.
/// Bit i of an option says whether it names credential query i.
#[derive(Drop)]
pub struct CredentialSet {
    pub(crate) options: Vec<u16>,
    pub(crate) required: bool,
}

impl Model for CredentialSet {
    ghost use Rattle.dcql_query.specs.Query.{CredentialSet as Meant};

    ghost Value = { Meant };

    ghost view = { λ s. record { options = s.options.items; required = s.required } };
}

/// A query for credentials: 1 to 16 credential queries, no two of one id, and at most 16 credential
/// sets, which say how they belong together.
#[derive(Drop)]
pub struct Query {
    pub(crate) credentials: Vec<CredentialQuery>,
    pub(crate) sets: Option<Vec<CredentialSet>>,
}

impl Model for Query {
    ghost use Rattle.dcql_query.specs.Query.{Query as Meant};

    ghost Value = { Meant };

    ghost use Rattle.dcql_query.specs.WellFormed.{IsQuery};
    ghost use Rattle.dcql_query.specs.code.Stored.{query_in};

    ghost view = { query_in };

    ghost invariant = { λ q. IsQuery (query_in q) };
}

impl Query {
    /// How many credential queries there are: 1 to 16. Every query is well formed.
    pub fn len(&self) -> usize
        ensures count { result ≡ length self.now.credentials }
        ensures some { 0 < result }
        ensures few { result ≤ 16 }
        ensures well_formed { IsQuery self.now }
    {
        self.credentials.len()
    }

    /// The credential queries, in the order of the JSON text.
    pub fn credentials(&self) -> &[CredentialQuery]
        ensures value { result.now ≡ self.now.credentials }
        ensures well_formed { IsQuery self.now }
    {
        self.credentials.as_slice()
    }

    /// The set of all credential queries, as the number whose bit i stands for credential query i.
    pub fn all(&self) -> u16
        ensures bits { result ≡ 2 ^ length self.now.credentials - 1 }
        ensures well_formed { IsQuery self.now }
    {
        ((1u32 << self.len()) - 1) as u16
    }

    /// The credential query at place `i`, in the order of the JSON text. Its id is that of no other.
    pub fn at(&self, i: usize) -> &CredentialQuery
        requires { i < length self.now.credentials }
        ensures at { slice_get self.now.credentials i ≡ Some result.now }
        ensures named { query_from 0 result.now.id self.now.credentials ≡ Some i }
    {
        &self.credentials[i]
    }

    /// The place of the credential query with this id.
    pub fn place_of(&self, id: &str) -> Option<usize>
        ensures { result ≡ query_from 0 id.now self.now.credentials }
    {
        place_in(&self.credentials, id)
    }

    /// How many credential sets there are: at most 16, and none where every credential query is to be
    /// answered.
    pub fn sets(&self) -> usize
        ensures count { result ≡ length (sets_in self.now) }
        ensures few { result ≤ 16 }
    {
        self.credential_sets().len()
    }

    /// Whether credential set `set` is to be answered, and not only may be.
    pub fn required(&self, set: usize) -> bool
        requires { set < length (sets_in self.now) }
        ensures { result ≡ (credential_set_at self.now set).required }
    {
        let set = self.set_at(set);
        set.required
    }

    /// How many options credential set `set` has: 1 to 16.
    pub fn options(&self, set: usize) -> usize
        requires { set < length (sets_in self.now) }
        ensures count { result ≡ length (credential_set_at self.now set).options }
        ensures some { 0 < result }
        ensures few { result ≤ 16 }
    {
        let set = self.set_at(set);
        set.options.len()
    }

    /// Option `option` of credential set `set`, as the number whose bit i says whether it names credential
    /// query i. It names one or more, and bits past the last credential query are not set.
    pub fn option(&self, set: usize, option: usize) -> u16
        requires set { set < length (sets_in self.now) }
        requires option { option < length (credential_set_at self.now set).options }
        ensures bits { result ≡ slice_index (credential_set_at self.now set).options option }
        ensures some { 0 < result }
        ensures below { result < 2 ^ length self.now.credentials }
    {
        let set = self.set_at(set);
        set.options[option]
    }

    fn set_at(&self, set: usize) -> &CredentialSet
        requires { set < length (sets_in self.now) }
        ensures at { result.now ≡ credential_set_at self.now set }
        ensures well_formed { IsQuery self.now }
    {
        &self.credential_sets()[set]
    }

    fn credential_sets(&self) -> &[CredentialSet]
        ensures sets { result.now ≡ sets_in self.now }
        ensures well_formed { IsQuery self.now }
    {
        match &self.sets {
            Some(sets) => sets.as_slice(),
            None => &[],
        }
    }
}

fn place_in(credentials: &[CredentialQuery], id: &str) -> Option<usize>
    ensures { result ≡ query_from 0 id.now credentials.now }
{
    for place in 0..credentials.len() {
        if id == credentials[place].id() {
            return Some(place);
        }
    }
    None
}
