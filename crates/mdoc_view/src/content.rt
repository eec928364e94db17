// The content of a document: its issuer's signed message, its claim tree and its facts.
ghost use Rattle.std.specs.Prelude.{◌≡◌, true};
ghost use Rattle.owned_tree.specs.Owned.{tree_of};
ghost use Rattle.claim_tree.specs.Tree.{is_claim};

use claim_tree::KeyName;
use cose_sign1::Sign1;
use owned_tree::OwnedTree;

/// What a document says. It borrows the document's bytes.
#[derive(Drop)]
pub struct Content<'t> {
    pub auth: Sign1<'t>,
    pub root: OwnedTree,
    pub kind: &'t str,
    pub issuer: KeyName,
    pub holder: Option<KeyName>,
    pub first: u64,
    pub past: Option<u64>,
    ghost claim: { is_claim (tree_of root) ≡ true },
}
