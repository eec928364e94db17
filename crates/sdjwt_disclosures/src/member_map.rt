// A map of an object's members by their names, to which members from disclosures are added.
ghost use Rattle.std.specs.Prelude.{◌≡◌, IfOk, OnOk, true, map};
ghost use Rattle.claim_tree.specs.Tree.{ascend};
ghost use Rattle.owned_tree.specs.Owned.{named_of};
ghost use Rattle.sdjwt_disclosures.specs.PutMember.{put_member};
ghost use Rattle.claim_tree.specs.Ascending.{names_of};
ghost use Rattle.sdjwt_disclosures.specs.code.MemberMap.{members_in};

use owned_tree::{OwnedElement, OwnedMember};
use std::alloc::{AllocError, Global};
use std::collections::BTreeMap;

/// The map of members whose names ascend by their bytes.
pub fn map_members(
    alloc: Global,
    members: Vec<OwnedMember>,
) -> Result<BTreeMap<String, OwnedElement>, AllocError>
    requires { ascend (names_of (map named_of members.items)) ≡ true }
    ensures { IfOk result (λ by_name. members_in by_name.entries ≡ map named_of members.items) }
{
    let mut by_name = BTreeMap::new(alloc);
    for member in members {
        put(&mut by_name, member)?;
    }
    Ok(by_name)
}

/// Adds a member. Where its name is in the map already, the map stays as it is.
pub fn put(
    by_name: &mut BTreeMap<String, OwnedElement>,
    member: OwnedMember,
) -> Result<(), AllocError>
    requires { ascend (names_of (members_in by_name.old.entries)) ≡ true }
    ensures put { OnOk result
        (members_in by_name.new.entries ≡ put_member (named_of member) (members_in by_name.old.entries)) }
    ensures order { ascend (names_of (members_in by_name.new.entries)) ≡ true }
{
    if by_name.contains_key(member.name.as_str()) {
        return Ok(());
    }
    let OwnedMember { name, held, tree } = member;
    by_name.insert(name, OwnedElement { held, tree })?;
    Ok(())
}

/// The members in the order of their names.
pub fn members_of(
    alloc: Global,
    by_name: BTreeMap<String, OwnedElement>,
) -> Result<Vec<OwnedMember>, AllocError>
    ensures { IfOk result (λ members. map named_of members.items ≡ members_in by_name.entries) }
{
    let mut members = Vec::with_capacity(alloc, by_name.len())?;
    for (name, element) in by_name {
        members.push(OwnedMember {
            name,
            held: element.held,
            tree: element.tree,
        })?;
    }
    Ok(members)
}
