// A node of a document's claim tree.
ghost use Rattle.std.specs.Prelude.{◌≡◌, true};
ghost use Rattle.owned_tree.specs.Owned.{tree_of};
ghost use Rattle.claim_tree.specs.Tree.{is_claim};
ghost use Rattle.mdoc_view.specs.Node.{node_tree, node_is_claim};

use claim_tree::{ClaimNode, ClaimView, Shape};
use owned_tree::{OwnedNode, OwnedTree};

/// A node of a mobile document's claim tree. Its texts live as long as the credential.
#[derive(Clone, Copy)]
pub struct MdNode<'a> {
    node: OwnedNode<'a>,
}

impl<'a> MdNode<'a> {
    pub(crate) fn new(root: &'a OwnedTree) -> MdNode<'a>
        requires { is_claim (tree_of root.now) ≡ true }
        ensures { node_tree result ≡ tree_of root.now }
    {
        MdNode {
            node: OwnedNode::new(root),
        }
    }
}

impl<'a> ClaimNode for MdNode<'a> {
    ghost tree = { node_tree };

    ghost claim = { node_is_claim };

    fn shape(self) -> Shape {
        self.node.shape()
    }

    fn len(self) -> usize {
        self.node.len()
    }

    fn at(self, i: usize) -> Self {
        MdNode {
            node: self.node.at(i),
        }
    }

    fn name_ref(&self, i: usize) -> &str {
        self.node.name_at(i)
    }

    fn held_at(self, i: usize) -> bool {
        self.node.held_at(i)
    }

    fn member(self, name: &str) -> Option<Self> {
        match self.node.member(name) {
            Some(node) => Some(MdNode { node }),
            None => None,
        }
    }

    fn loose(self) -> bool {
        self.node.loose()
    }

    fn text_ref(&self) -> Option<&str> {
        self.node.text()
    }

    fn whole(self) -> Option<i128> {
        self.node.whole()
    }

    fn truth(self) -> Option<bool> {
        self.node.truth()
    }
}

impl<'a> ClaimView<'a> for MdNode<'a> {
    fn name_at(self, i: usize) -> &'a str {
        self.node.name_at(i)
    }

    fn text(self) -> Option<&'a str> {
        self.node.text()
    }
}
