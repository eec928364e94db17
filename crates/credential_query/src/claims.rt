// Whether a claim tree has what a claim set asks for.
ghost use Rattle.std.specs.Prelude.{◌≡◌, ◌<◌, length};
ghost use Rattle.credential_query.specs.Claims.{claims_met, have_hits, has_hits_at};

use crate::credential::{Claim, CredentialQuery};
use claim_path::has_hit;
use claim_tree::ClaimView;

/// Whether every claim of claim set `set` has hits in the tree that `view` shows. It does not look at the
/// format, the types and the binding that the query asks for, and takes no memory.
pub fn claims_met<'a, V: ClaimView<'a>>(query: &CredentialQuery, set: usize, view: V) -> bool
    requires { set < length query.now.sets }
    ensures { result ≡ claims_met query.now set (V.tree view) }
{
    have_hits(&query.claims, &query.sets[set], view)
}

fn have_hits<'a, V: ClaimView<'a>>(claims: &[Claim], places: &[usize], view: V) -> bool
    ensures { result ≡ have_hits claims.now (V.tree view) places.now }
{
    for place in places {
        if !has_hits_at(claims, *place, view) {
            return false;
        }
    }
    true
}

fn has_hits_at<'a, V: ClaimView<'a>>(claims: &[Claim], place: usize, view: V) -> bool
    ensures { result ≡ has_hits_at claims.now (V.tree view) place }
{
    match claims.get(place) {
        Some(claim) => has_hit(&claim.path, claim.values.as_ref(), view),
        None => false,
    }
}
