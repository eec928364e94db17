// What a claim set shows of a claim tree.
ghost use Rattle.std.specs.Prelude.{◌≡◌, ◌<◌, IfOk, length};
ghost use Rattle.std.specs.List.{flat_map};
ghost use Rattle.credential_matching.specs.Shown.{hits_at, shown, IsShown};

use claim_path::hits;
use claim_tree::{Address, ClaimView};
use credential_query::{Claim, CredentialQuery, NoMemory};
use std::alloc::Global;

/// The addresses that claim set `set` of the query shows in the tree that `view` shows: those that its
/// claims hit, each once, in ascending order. Of a claim that has no hits it shows nothing: whether all have
/// some, [`meets`](crate::meets) says.
pub fn shown_for<'a, V: ClaimView<'a>>(
    alloc: Global,
    query: &CredentialQuery,
    set: usize,
    view: V,
) -> Result<Vec<Address>, NoMemory>
    requires { set < length query.now.sets }
    ensures exact { IfOk result (λ found. found.items ≡ shown query.now set (V.tree view)) }
    ensures meaning { IfOk result (λ found. IsShown query.now set (V.tree view) found.items) }
{
    let mut found = all_hits(alloc, query.claims(), query.set(set), view)?;
    found.sort_unstable();
    found.dedup();
    Ok(found)
}

// What the claims at these places hit, claim by claim.
fn all_hits<'a, V: ClaimView<'a>>(
    alloc: Global,
    claims: &[Claim],
    places: &[usize],
    view: V,
) -> Result<Vec<Address>, NoMemory>
    ensures { IfOk result (λ v. v.items ≡ flat_map (hits_at claims.now (V.tree view)) places.now) }
{
    let mut found = Vec::new(alloc);
    for place in places {
        found.append(&mut hits_at(alloc, claims, *place, view)?)?;
    }
    Ok(found)
}

fn hits_at<'a, V: ClaimView<'a>>(
    alloc: Global,
    claims: &[Claim],
    place: usize,
    view: V,
) -> Result<Vec<Address>, NoMemory>
    ensures { IfOk result (λ v. v.items ≡ hits_at claims.now (V.tree view) place) }
{
    match claims.get(place) {
        Some(claim) => Ok(hits(alloc, claim.path(), claim.values(), view)?),
        None => Ok(Vec::new(alloc)),
    }
}
