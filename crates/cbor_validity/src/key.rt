//! Whether the keys of a map are distinct.

ghost use Rattle.std.specs.Prelude.{◌≡◌, ◌∷◌, map};
ghost use Rattle.cbor_validity.specs.Keys.{key_of, same_key, keys_differ, neighbours_differ};
ghost use Rattle.cbor_validity.specs.code.KeySeen.{meaning_of};

use crate::head::{Head, head_at};

/// A key by what it is compared by: two keys of a map are the same where these are equal.
#[derive(Clone, Copy, PartialEq, Eq, PartialOrd, Ord)]
pub enum Key<'a> {
    Whole(i128),
    Text(&'a [u8]),
    Bytes(&'a [u8]),
    /// Any other item, by the bytes of its encoding.
    Other(&'a [u8]),
}

/// The key that the item with these bytes is.
#[tactic(auto, unfolding(crate::specs::Keys::key_of))]
pub(crate) fn key_of(bytes: &[u8]) -> Key<'_>
    ensures { meaning_of result ≡ key_of bytes.now }
{
    let Ok((head, back)) = head_at(bytes) else {
        return Key::Other(bytes);
    };
    match head {
        Head::Unsigned(n) => Key::Whole(i128::from(n)),
        Head::Negative(n) => Key::Whole(-1 - i128::from(n)),
        Head::Text(_) => Key::Text(back),
        Head::Bytes(_) => Key::Bytes(back),
        _ => Key::Other(bytes),
    }
}

/// Whether the two keys are the same.
fn is_same(a: &Key, b: &Key) -> bool
    ensures { result ≡ same_key (meaning_of a.now) (meaning_of b.now) }
{
    a == b
}

/// Whether every key differs from the one before it.
fn neighbours_differ(keys: &[Key]) -> bool
    ensures { result ≡ neighbours_differ (map meaning_of keys.now) }
{
    let Some((first, rest)) = keys.split_first() else {
        return true;
    };
    let mut before = first;
    for key in rest {
        if is_same(before, key) {
            return false;
        }
        before = key;
    }
    true
}

/// Whether the keys are distinct. They are sorted first, which takes time n log n for n keys.
pub(crate) fn are_different(keys: Vec<Key>) -> bool
    ensures { result ≡ keys_differ (map meaning_of keys.entry.items) }
{
    let mut keys = keys;
    keys.sort_unstable();
    neighbours_differ(&keys)
}
