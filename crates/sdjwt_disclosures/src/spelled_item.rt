// What an item of a JSON list becomes in the claim tree.

use owned_tree::OwnedElement;

// An element, none, or a value with too many levels.
#[derive(Drop)]
pub enum SpelledItem {
    Found(OwnedElement),
    Nothing,
    TooDeep,
}
