// What a query asks of one credential.
ghost use Rattle.std.specs.Prelude.{◌≡◌, ◌<◌, ◌≤◌, true, length};
ghost use Rattle.std.specs.List.{list_any};
ghost use Rattle.std.specs.Option.{option_copied};
ghost use Rattle.std.specs.Str.{bytes_eq};
ghost use Rattle.dcql_rules.specs.Ids.{is_id};
ghost use Rattle.credential_query.specs.Claims.{set_at};
ghost use Rattle.credential_query.specs.Credential.{allows_kind};
ghost use Rattle.credential_query.specs.WellFormed.{IsCredential};

use claim_path::{Path, Values};
use claim_tree::{Format, Name};
use std::marker::Model;

/// A claim that a query asks for: a path, and the values of which its element must have one.
#[derive(Drop)]
pub struct Claim {
    pub(crate) path: Path,
    pub(crate) values: Option<Values>,
}

impl Model for Claim {
    ghost use Rattle.credential_query.specs.Credential.{Claim as Meant};

    ghost Value = { Meant };

    ghost view = { λ c. record { path = c.path; values = c.values } };
}

impl Claim {
    /// The path to the elements that are asked for.
    pub fn path(&self) -> &Path
        ensures { result.now ≡ self.now.path }
    {
        &self.path
    }

    /// The values of which an element must have one, or none where any will do.
    pub fn values(&self) -> Option<&Values>
        ensures { option_copied result ≡ self.now.values }
    {
        self.values.as_ref()
    }
}

/// What a query asks of one credential.
#[derive(Drop)]
pub struct CredentialQuery {
    pub(crate) id: Name,
    pub(crate) format: Option<Format>,
    pub(crate) kinds: Option<Vec<Name>>,
    pub(crate) multiple: bool,
    pub(crate) binding: bool,
    pub(crate) claims: Vec<Claim>,
    pub(crate) sets: Vec<Vec<usize>>,
}

impl Model for CredentialQuery {
    ghost use Rattle.credential_query.specs.Credential.{Credential};

    ghost Value = { Credential };

    ghost use Rattle.credential_query.specs.WellFormed.{IsCredential};
    ghost use Rattle.credential_query.specs.code.Stored.{credential_in};

    ghost view = { credential_in };

    ghost invariant = { λ q. IsCredential (credential_in q) };
}

impl CredentialQuery {
    /// Its id, which no other credential query of the query has.
    pub fn id(&self) -> &str
        ensures id { result.now ≡ self.now.id }
        ensures form { is_id result.now ≡ true }
    {
        self.id.as_str()
    }

    /// The format that is asked for, or none where it is another than those that are known.
    pub fn format(&self) -> Option<Format>
        ensures { result ≡ self.now.format }
    {
        self.format
    }

    /// Whether a credential of this type may be presented for it.
    pub fn allows_kind(&self, kind: &str) -> bool
        ensures { result ≡ allows_kind self.now kind.now }
    {
        match &self.kinds {
            Some(kinds) => is_among(kinds, kind),
            None => true,
        }
    }

    /// Whether several credentials may be presented for it.
    pub fn multiple(&self) -> bool
        ensures { result ≡ self.now.multiple }
    {
        self.multiple
    }

    /// Whether a credential must be bound to its holder's key.
    pub fn binding(&self) -> bool
        ensures { result ≡ self.now.binding }
    {
        self.binding
    }

    /// How many claim sets there are, of which one is to be met: 1 to 32. Every credential query is well
    /// formed.
    pub fn set_count(&self) -> usize
        ensures count { result ≡ length self.now.sets }
        ensures some { 0 < result }
        ensures few { result ≤ 32 }
        ensures well_formed { IsCredential self.now }
    {
        self.sets.len()
    }

    /// Claim set `set`, as the places of its claims in [`CredentialQuery::claims`].
    pub fn set(&self, set: usize) -> &[usize]
        requires { set < length self.now.sets }
        ensures { result.now ≡ set_at self.now set }
    {
        &self.sets[set]
    }

    /// The claims that its claim sets are made of: at most 64.
    pub fn claims(&self) -> &[Claim]
        ensures claims { result.now ≡ self.now.claims }
        ensures few { length result.now ≤ 64 }
    {
        &self.claims
    }
}

fn is_among(names: &[Name], name: &str) -> bool
    ensures { result ≡ list_any (bytes_eq name.now) names.now }
{
    names.iter().any(|other| name == other.as_str())
}
