// What an SD-JWT says.
ghost use Rattle.std.specs.Prelude.{◌≡◌, true};
ghost use Rattle.claim_tree.specs.Tree.{is_claim};
ghost use Rattle.owned_tree.specs.Owned.{tree_of};

use base_forms::HashName;
use claim_tree::KeyName;
use jws_envelope::Jws;
use owned_tree::OwnedTree;

/// The issuer's message, the hash of its digests, its claim tree and its facts.
#[derive(Drop)]
pub struct Content<'t> {
    pub jws: Jws<'t>,
    pub hash: HashName,
    pub root: OwnedTree,
    pub kind: String,
    pub issuer: KeyName,
    pub holder: Option<KeyName>,
    pub first: u64,
    pub past: Option<u64>,
    ghost claim: { is_claim (tree_of root) ≡ true },
}
