// The claim tree of a document.
ghost use Rattle.std.specs.Prelude.{◌≡◌, IfOk, map};
ghost use Rattle.owned_tree.specs.Owned.{tree_of};
ghost use Rattle.mdoc_items.specs.Value.{document_tree, namespace_tree};
ghost use Rattle.mdoc_items.specs.Parts.{said_namespace};

use crate::issuer_signed_items::Namespace;
use crate::value::{Named, record, value_tree};
use owned_tree::OwnedTree;
use std::alloc::{AllocError, Global};

/// The tree of a document's namespaces, in which each of them and each element is held.
#[tactic(auto, unfolding(crate::specs::Value::document_tree))]
pub fn document_tree(alloc: Global, namespaces: &[Namespace]) -> Result<OwnedTree, AllocError>
    ensures { IfOk result (λ t. tree_of t ≡ document_tree (map said_namespace namespaces.now)) }
{
    let mut members = Vec::new(alloc);
    for namespace in namespaces {
        let tree = namespace_tree(alloc, namespace)?;
        let name = namespace.name;
        members.push(Named { name, tree })?;
    }
    record(alloc, true, members)
}

fn namespace_tree(alloc: Global, namespace: &Namespace) -> Result<OwnedTree, AllocError>
    ensures { IfOk result (λ t. tree_of t ≡ namespace_tree (said_namespace namespace.now)) }
{
    let mut members = Vec::new(alloc);
    for item in namespace.items.as_slice() {
        let tree = value_tree(alloc, item.element_value)?;
        let name = item.element_identifier;
        members.push(Named { name, tree })?;
    }
    record(alloc, true, members)
}
