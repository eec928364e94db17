// Finding a record's member by its name.
ghost use Rattle.std.specs.Prelude.{◌≡◌, ◌<◌, ◌≤◌, true, MatchResult, length, map};
ghost use Rattle.claim_tree.specs.Tree.{ascend};
ghost use Rattle.owned_tree.specs.Owned.{named_of};
ghost use Rattle.claim_tree.specs.Ascending.{names_of};
ghost use Rattle.owned_tree.specs.Search.{IsPlaceOf};

use crate::owned::OwnedMember;

// The place of the member of this name, or the place where it would be put.
pub(crate) fn place_of(members: &[OwnedMember], name: &str) -> Result<usize, usize>
    requires { ascend (names_of (map named_of members.now)) ≡ true }
    ensures within { MatchResult result (λ place. place < length members.now) (λ place.
        place ≤ length members.now) }
    ensures place { IsPlaceOf name.now (names_of (map named_of members.now)) result }
{
    members.binary_search_by(|member| member.name.as_str().cmp(name))
}
