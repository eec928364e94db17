// Views of claim trees that own their parts.
ghost use Rattle.std.specs.Prelude.{◌≡◌, ◌<◌, true, Some, slice_get, option_map, length, map};
ghost use Rattle.claim_tree.specs.Tree.{is_claim, ascend, parts, marks, names, text_of, part_named};
ghost use Rattle.claim_tree.specs.Tree.{member_at};
ghost use Rattle.owned_tree.specs.Owned.{tree_of, named_of};
ghost use Rattle.claim_tree.specs.Parts.{members_of};
ghost use Rattle.claim_tree.specs.Ascending.{names_of};

use crate::members::place_of;
use crate::owned::{OwnedMember, OwnedTree};
use claim_tree::{ClaimNode, ClaimView, Shape};

/// A part of an [`OwnedTree`]. Its texts live as long as the tree, and no call takes memory.
#[derive(Clone, Copy)]
pub struct OwnedNode<'a> {
    pub(crate) root: &'a OwnedTree,
    ghost claim: { is_claim (tree_of root.now) ≡ true },
}

impl<'a> OwnedNode<'a> {
    ghost use Rattle.owned_tree.specs.OwnedNode.{node_tree};

    /// The root of a tree. In it the names in each record ascend by their bytes, and each list with a held
    /// element is loose.
    pub fn new(root: &'a OwnedTree) -> OwnedNode<'a>
        requires { is_claim (tree_of root.now) ≡ true }
        ensures { node_tree result ≡ tree_of root.now }
    {
        OwnedNode { root }
    }
}

impl<'a> ClaimNode for OwnedNode<'a> {
    ghost use Rattle.owned_tree.specs.OwnedNode.{node_tree};

    ghost tree = { node_tree };

    ghost claim = { λ n. n.claim };

    fn shape(self) -> Shape {
        match self.root {
            OwnedTree::Text(_) => Shape::Text,
            OwnedTree::Whole(_) => Shape::Whole,
            OwnedTree::Truth(_) => Shape::Truth,
            OwnedTree::Null => Shape::Null,
            OwnedTree::Bytes(_) => Shape::Bytes,
            OwnedTree::Other => Shape::Other,
            OwnedTree::List(_, _) => Shape::List,
            OwnedTree::Record(_) => Shape::Record,
        }
    }

    fn len(self) -> usize {
        match self.root {
            OwnedTree::List(_, elements) => elements.len(),
            OwnedTree::Record(members) => members.len(),
            _ => 0,
        }
    }

    fn at(self, i: usize) -> Self {
        OwnedNode {
            root: part_at(self.root, i),
        }
    }

    fn name_ref(&self, i: usize) -> &str {
        name_in(self.root, i)
    }

    fn held_at(self, i: usize) -> bool {
        mark_at(self.root, i)
    }

    fn member(self, name: &str) -> Option<Self> {
        match member_in(self.root, name) {
            Some(root) => Some(OwnedNode { root }),
            None => None,
        }
    }

    fn loose(self) -> bool {
        match self.root {
            OwnedTree::List(loose, _) => *loose,
            _ => false,
        }
    }

    fn text_ref(&self) -> Option<&str> {
        text_in(self.root)
    }

    fn whole(self) -> Option<i128> {
        match self.root {
            OwnedTree::Whole(whole) => Some(*whole),
            _ => None,
        }
    }

    fn truth(self) -> Option<bool> {
        match self.root {
            OwnedTree::Truth(truth) => Some(*truth),
            _ => None,
        }
    }
}

impl<'a> ClaimView<'a> for OwnedNode<'a> {
    fn name_at(self, i: usize) -> &'a str {
        name_in(self.root, i)
    }

    fn text(self) -> Option<&'a str> {
        text_in(self.root)
    }
}

fn part_at(root: &OwnedTree, i: usize) -> &OwnedTree
    requires { i < length (parts (tree_of root.now)) }
    ensures { slice_get (parts (tree_of root.now)) i ≡ Some (tree_of result.now) }
{
    match root {
        OwnedTree::List(_, elements) => return &elements[i].tree,
        OwnedTree::Record(members) => return &members[i].tree,
        _ => unreachable!(),
    }
}

fn mark_at(root: &OwnedTree, i: usize) -> bool
    requires { i < length (marks (tree_of root.now)) }
    ensures { slice_get (marks (tree_of root.now)) i ≡ Some result }
{
    match root {
        OwnedTree::List(_, elements) => return elements[i].held,
        OwnedTree::Record(members) => return members[i].held,
        _ => unreachable!(),
    }
}

fn name_in(root: &OwnedTree, i: usize) -> &str
    requires { i < length (names (tree_of root.now)) }
    ensures { slice_get (names (tree_of root.now)) i ≡ Some result.now }
{
    match root {
        OwnedTree::Record(members) => members[i].name.as_str(),
        _ => unreachable!(),
    }
}

fn text_in(root: &OwnedTree) -> Option<&str>
    ensures { option_map (λ s. s.now) result ≡ text_of (tree_of root.now) }
{
    match root {
        OwnedTree::Text(text) => Some(text.as_str()),
        _ => None,
    }
}

fn member_in<'a>(root: &'a OwnedTree, name: &str) -> Option<&'a OwnedTree>
    requires { is_claim (tree_of root.now) ≡ true }
    ensures { option_map (λ t. tree_of t.now) result ≡ part_named name.now (tree_of root.now) }
{
    match root {
        OwnedTree::Record(members) => member_named(members, name),
        _ => None,
    }
}

fn member_named<'a>(members: &'a [OwnedMember], name: &str) -> Option<&'a OwnedTree>
    requires { ascend (names_of (map named_of members.now)) ≡ true }
    ensures { option_map (λ t. tree_of t.now) result
        ≡ member_at name.now (members_of (map named_of members.now)) }
{
    match place_of(members, name) {
        Ok(place) => Some(&members[place].tree),
        Err(_) => None,
    }
}
