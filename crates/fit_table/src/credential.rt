// A credential of either format.
ghost use Rattle.std.specs.Prelude.{◌≡◌, ◌↔◌, ◌<◌, length, option_map, IfOk, IsTrue};
ghost use Rattle.credential_matching.specs.Meets.{Describes, Meets};
ghost use Rattle.credential_matching.specs.Shown.{shown};
ghost use Rattle.fit_table.specs.Credential.{meaning};
ghost use Rattle.fit_table.specs.Usable.{NeedsKey, IsHeld, IsUsable};

use crate::error::NoMemory;
use claim_tree::{Address, Facts, Format, KeyName};
use dcql_query::CredentialQuery;
use key_device::KeyDevice;
use mdoc_view::MdCredential;
use sdjwt_view::SdCredential;
use std::alloc::Global;

/// A credential of either format. It borrows what it was read from.
#[derive(Drop)]
pub enum Credential<'t> {
    /// An SD-JWT VC.
    Sd(SdCredential<'t>),
    /// A mobile document.
    Md(MdCredential<'t>),
}

impl<'t> Credential<'t> {
    /// What it says of itself. Takes no memory.
    pub fn facts<'a>(&'a self) -> Facts<'a>
        ensures { Describes result (meaning self.now).tree (meaning self.now) }
    {
        match self {
            Credential::Sd(credential) => credential.facts(),
            Credential::Md(credential) => credential.facts(),
        }
    }

    /// Whether it meets claim set `set` of the query. Takes no memory.
    pub fn meets(&self, query: &CredentialQuery, set: usize) -> bool
        requires { set < length query.now.sets }
        ensures { IsTrue result ↔ Meets query.now set (meaning self.now) }
    {
        match self {
            Credential::Sd(credential) => {
                credential_matching::meets(query, set, credential.root(), credential.facts())
            }
            Credential::Md(credential) => {
                credential_matching::meets(query, set, credential.root(), credential.facts())
            }
        }
    }

    /// The addresses that claim set `set` of the query shows of it: those that its claims hit, each once, in
    /// ascending order.
    ///
    /// # Errors
    ///
    /// [`NoMemory`] where it is out of memory.
    pub fn shown(
        &self,
        alloc: Global,
        query: &CredentialQuery,
        set: usize,
    ) -> Result<Vec<Address>, NoMemory>
        requires { set < length query.now.sets }
        ensures { IfOk result (λ found. found.items ≡ shown query.now set (meaning self.now).tree) }
    {
        match self {
            Credential::Sd(credential) => {
                Ok(credential_matching::shown_for(alloc, query, set, credential.root())?)
            }
            Credential::Md(credential) => {
                Ok(credential_matching::shown_for(alloc, query, set, credential.root())?)
            }
        }
    }

    /// Whether it may be presented for the query at this moment, in seconds since 1970-01-01T00:00:00Z, by a
    /// holder with this device: it is in date, and the device holds its holder's key where the query asks for
    /// binding or it is a mobile document. Takes no memory.
    pub fn is_usable<K: KeyDevice>(&self, query: &CredentialQuery, moment: u64, device: &K) -> bool
        ensures { IsTrue result ↔ IsUsable query.now (K.state device.now).held moment (meaning self.now) }
    {
        let facts = self.facts();
        facts.is_in_date(moment) && (!needs_key(query, facts.format) || self.is_held(device))
    }

    /// Whether the device holds its holder's key. It does not where the credential is bound to no key. Takes
    /// no memory.
    pub fn is_held<K: KeyDevice>(&self, device: &K) -> bool
        ensures { IsTrue result ↔ IsHeld (K.state device.now).held (meaning self.now).holder }
    {
        is_held(self.facts().holder, device)
    }
}

// Whether a credential of this format is presented for the query by a signature of its holder.
fn needs_key(query: &CredentialQuery, format: Format) -> bool
    ensures { IsTrue result ↔ NeedsKey query.now format }
{
    query.binding() || format == Format::Mdoc
}

// Whether there is a holder's key that the device holds.
fn is_held<K: KeyDevice>(holder: Option<&KeyName>, device: &K) -> bool
    ensures { IsTrue result ↔ IsHeld (K.state device.now).held (option_map (λ name. name.now) holder.entry) }
{
    match holder {
        Some(name) => device.holds(name).is_some(),
        None => false,
    }
}
