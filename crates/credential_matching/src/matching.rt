// Whether a credential may be presented for a credential query.
ghost use Rattle.std.specs.Prelude.{◌↔◌, ◌<◌, length, IsTrue};
ghost use Rattle.claim_tree.specs.Credential.{Credential};
ghost use Rattle.claim_tree.specs.Tree.{Tree};
ghost use Rattle.credential_matching.specs.Meets.{Describes, Allows, Meets, MeetsSome};

use claim_tree::{ClaimView, Facts};
use credential_query::{CredentialQuery, claims_met};

/// Whether a credential meets claim set `set` of the query: it has the format that the query asks for and a
/// type that is allowed, it is bound to a key where the query asks for binding, and every claim of the set
/// has hits in its tree. The credential says these facts, and `view` stands at the root of its tree. Takes
/// no memory.
pub fn meets<'a, V: ClaimView<'a>>(
    query: &CredentialQuery,
    set: usize,
    view: V,
    facts: Facts<'_>,
) -> bool
    requires { set < length query.now.sets }
    ensures { (c : Credential) → Describes facts.entry (V.tree view) c
        → (IsTrue result ↔ Meets query.now set c) }
{
    allows(query, facts) && claims_met(query, set, view)
}

/// Whether the credential meets some claim set of the query. Takes no memory.
pub fn meets_some<'a, V: ClaimView<'a>>(query: &CredentialQuery, view: V, facts: Facts<'_>) -> bool
    ensures { (c : Credential) → Describes facts.entry (V.tree view) c
        → (IsTrue result ↔ MeetsSome query.now c) }
{
    for set in 0..query.set_count() {
        if meets(query, set, view, facts) {
            return true;
        }
    }
    false
}

// Whether the query allows a credential that says these facts, whatever its claims are.
fn allows(query: &CredentialQuery, facts: Facts<'_>) -> bool
    ensures { (t : Tree) (c : Credential) → Describes facts.entry t c → (IsTrue result ↔ Allows query.now c) }
{
    query.format() == Some(facts.format)
        && query.allows_kind(facts.kind)
        && (!query.binding() || facts.holder.is_some())
}
