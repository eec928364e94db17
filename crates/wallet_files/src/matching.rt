// Whether a claim tree has what a credential query asks for.
ghost use Rattle.std.specs.Prelude.{◌≡◌};
ghost use Rattle.wallet_files.specs.Met.{is_met};

use claim_tree::ClaimView;
use dcql_query::{CredentialQuery, claims_met};

/// Whether every claim of some claim set of the query has hits in the tree. Takes no memory.
pub fn is_met<'a, V: ClaimView<'a>>(query: &CredentialQuery, view: V) -> bool
    ensures { result ≡ is_met query.now (V.tree view) }
{
    for set in 0..query.set_count() {
        if claims_met(query, set, view) {
            return true;
        }
    }
    false
}
