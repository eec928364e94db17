//! Views of items.

ghost use Rattle.cbor_validity.specs.Head.{Gives};
ghost use Rattle.cbor_validity.specs.Item.{item_at};
ghost use Rattle.std.specs.Prelude.{◌≡◌, ◌≤◌, ◌<◌, ◌^◌, ◌-◌, ◌≤ℤ◌, ◌<ℤ◌, pos, negsuc, length, IfOk, IfSome};
ghost use Rattle.std.specs.Prelude.{IsTrue, MatchOption, option_map, None, ℕ, List};
ghost use Rattle.std.specs.Option.{option_copied};
ghost use Rattle.std.specs.Iterator.{YieldsFirstBy, item_count};
ghost use Rattle.cbor_core.specs.Views.{is_item, items_in, whole_of, bytes_of, text_of, tag_of, truth_of};
ghost use Rattle.cbor_core.specs.Views.{kind_of, elements_of, items_of, pairs_of, entries_of, pair_up};
ghost use Rattle.cbor_core.specs.Views.{find_in, inside_of, before, before_break, if_utf8, utf8_text_of};

use crate::kind::Kind;
use cbor_validity::{Fault, Head, MAX_DEPTH, head_at, skip};
use std::str;

/// A view of an item: the bytes of its encoding. No call on it takes memory.
///
/// Finding the elements of a list or the entries of a map takes time linear in their bytes.
#[derive(Clone, Copy)]
pub struct Item<'a> {
    bytes: &'a [u8],
    ghost item: { IsTrue (is_item bytes.now) },
}

impl<'a> Item<'a> {
    ghost use Rattle.cbor_core.specs.Seen.{span_of, items_left, entries_left};

    /// The item that the bytes are.
    pub(crate) fn of(bytes: &'a [u8]) -> Item<'a>
        requires { IsTrue (is_item bytes.now) }
        ensures { result.bytes.now ≡ bytes.now }
    {
        Item { bytes }
    }

    /// The item at the front, and the bytes after it.
    pub(crate) fn first(bytes: &'a [u8], depth: u32) -> Result<(Item<'a>, &'a [u8]), Fault>
        requires { depth ≤ MAX_DEPTH }
        ensures rest { Gives (λ x. x.1.now) result (item_at depth bytes.now) }
        ensures front { IfOk result (λ x. x.0.bytes.now ≡ before x.1.now bytes.now) }
    {
        let after = skip(bytes, depth)?;
        let front = &bytes[..bytes.len() - after.len()];
        Ok((Item { bytes: front }, after))
    }

    /// The bytes of the item's encoding.
    pub fn span(self) -> &'a [u8]
        ensures { result.now ≡ span_of self.entry }
    {
        self.bytes
    }

    /// The kind of the item.
    #[tactic(auto, unfolding(crate::specs::Views::kind_of))]
    pub fn kind(self) -> Kind
        ensures { result ≡ kind_of (span_of self.entry) }
    {
        let Ok((head, _)) = head_at(self.bytes) else {
            return Kind::Other;
        };
        match head {
            Head::Unsigned(_) | Head::Negative(_) => Kind::Whole,
            Head::Bytes(_) => Kind::Bytes,
            Head::Text(_) => Kind::Text,
            Head::List(_) => Kind::List,
            Head::Map(_) => Kind::Map,
            Head::Tag(_) => Kind::Tag,
            Head::Simple(20 | 21) => Kind::Truth,
            Head::Simple(22) => Kind::Null,
            _ => Kind::Other,
        }
    }

    /// The integer that the item is, if it is one: from -2^64 to 2^64 - 1.
    #[tactic(auto, unfolding(crate::specs::Views::whole_of))]
    pub fn whole(self) -> Option<i128>
        ensures said { result ≡ whole_of (span_of self.entry) }
        ensures range { IfSome result (λ n. (negsuc (2 ^ 64 - 1) ≤ℤ n) × (n <ℤ pos (2 ^ 64))) }
    {
        let Ok((head, _)) = head_at(self.bytes) else {
            return None;
        };
        match head {
            Head::Unsigned(n) => Some(i128::from(n)),
            Head::Negative(n) => Some(-1 - i128::from(n)),
            _ => None,
        }
    }

    /// The boolean that the item is, if it is one.
    #[tactic(auto, unfolding(crate::specs::Views::truth_of))]
    pub fn truth(self) -> Option<bool>
        ensures { result ≡ truth_of (span_of self.entry) }
    {
        let Ok((head, _)) = head_at(self.bytes) else {
            return None;
        };
        match head {
            Head::Simple(20) => Some(false),
            Head::Simple(21) => Some(true),
            _ => None,
        }
    }

    /// The content of the byte string that the item is, if it is one.
    #[tactic(auto, unfolding(crate::specs::Views::bytes_of))]
    pub fn bytes(self) -> Option<&'a [u8]>
        ensures { option_map (λ b. b.now) result ≡ bytes_of (span_of self.entry) }
    {
        let Ok((head, back)) = head_at(self.bytes) else {
            return None;
        };
        match head {
            Head::Bytes(_) => Some(back),
            _ => None,
        }
    }

    /// The elements of a list, in written order. Any other item has none.
    #[tactic(auto, unfolding(crate::specs::Views::elements_of), using(crate::proofs::Counts::items_count))]
    pub fn items(self) -> Items<'a>
        ensures left { items_left result ≡ items_of (span_of self.entry) }
        ensures count { length (items_left result) < 2 ^ 64 }
    {
        let Ok((head, back)) = head_at(self.bytes) else {
            return Items { rest: &[] };
        };
        match head {
            Head::List(Some(_)) => Items { rest: back },
            Head::List(None) => Items {
                rest: before_break(back),
            },
            _ => Items { rest: &[] },
        }
    }

    /// The bytes of the text string that the item is, if it is one.
    #[tactic(auto, unfolding(cbor_validity::specs::Parts::text_of))]
    pub(crate) fn text_bytes(self) -> Option<&'a [u8]>
        ensures { option_map (λ b. b.now) result ≡ text_of (span_of self.entry) }
    {
        let Ok((head, back)) = head_at(self.bytes) else {
            return None;
        };
        match head {
            Head::Text(_) => Some(back),
            _ => None,
        }
    }

    /// The text string that the item is, if it is one and UTF-8.
    #[tactic(auto, unfolding(crate::specs::Views::utf8_text_of))]
    pub fn text(self) -> Option<&'a str>
        ensures { option_map (λ s. s.now) result ≡ utf8_text_of (span_of self.entry) }
    {
        match self.text_bytes() {
            Some(text) => utf8_text(text),
            None => None,
        }
    }

    /// The number of the tag and the item that it tags, if the item is a tag.
    #[tactic(auto, unfolding(crate::specs::Views::tag_of))]
    pub fn tag(self) -> Option<(u64, Item<'a>)>
        ensures { option_map (λ t. (t.0, span_of t.1)) result ≡ tag_of (span_of self.entry) }
    {
        let Ok((head, back)) = head_at(self.bytes) else {
            return None;
        };
        match head {
            Head::Tag(n) => Some((n, Item { bytes: back })),
            _ => None,
        }
    }

    /// The keys and values of a map, in written order. Any other item has none.
    #[tactic(auto, unfolding(cbor_validity::specs::Parts::pairs_of), using(crate::proofs::Counts::entries_count))]
    pub fn entries(self) -> Entries<'a>
        ensures left { entries_left result ≡ entries_of (span_of self.entry) }
        ensures count { length (entries_left result) < 2 ^ 64 }
    {
        let Ok((head, back)) = head_at(self.bytes) else {
            return Entries::of(&[]);
        };
        match head {
            Head::Map(Some(_)) => Entries::of(back),
            Head::Map(None) => Entries::of(before_break(back)),
            _ => Entries::of(&[]),
        }
    }

    /// The items directly inside the item: elements, keys and values, or the item that is tagged.
    #[tactic(auto, unfolding(cbor_validity::specs::Parts::inside_of))]
    pub(crate) fn inside(self) -> Items<'a>
        ensures { items_left result ≡ items_in (inside_of (span_of self.entry)) }
    {
        let Ok((head, back)) = head_at(self.bytes) else {
            return Items { rest: &[] };
        };
        match head {
            Head::List(Some(_)) | Head::Map(Some(_)) | Head::Tag(_) => Items { rest: back },
            Head::List(None) | Head::Map(None) => Items {
                rest: before_break(back),
            },
            _ => Items { rest: &[] },
        }
    }

    /// The value of the key that is this text, if the item is a map that has one.
    pub fn find(self, name: &str) -> Option<Item<'a>>
        ensures { option_map (λ i. span_of i) result ≡ find_in name.now (entries_of (span_of self.entry)) }
    {
        for (key, value) in self.entries() {
            if let Some(text) = key.text_bytes()
                && text == name.as_bytes()
            {
                return Some(value);
            }
        }
        None
    }
}

/// The bytes without the break at the end.
fn before_break(bytes: &[u8]) -> &[u8]
    ensures { result.now ≡ before_break bytes.now }
{
    &bytes[..bytes.len().saturating_sub(1)]
}

/// The bytes as a text, if they are UTF-8.
fn utf8_text(bytes: &[u8]) -> Option<&str>
    ensures { option_map (λ s. s.now) result ≡ if_utf8 bytes.now }
{
    match str::from_utf8(bytes) {
        Ok(text) => Some(text),
        Err(_) => None,
    }
}

/// An iterator over the elements of a list.
#[derive(Clone, Copy)]
pub struct Items<'a> {
    rest: &'a [u8],
}

impl<'a> Iterator for Items<'a> {
    type Item = Item<'a>;

    ghost use Rattle.cbor_core.specs.Seen.{span_of, items_left};

    ghost next_gives = { YieldsFirstBy span_of items_left };

    ghost remaining = { item_count items_left };

    fn next(&mut self) -> Option<Item<'a>> {
        if self.rest.is_empty() {
            return None;
        }
        let Ok(after) = skip(self.rest, MAX_DEPTH) else {
            return None;
        };
        let (front, rest) = self.rest.split_at(self.rest.len() - after.len());
        self.rest = rest;
        Some(Item { bytes: front })
    }
}

/// An iterator over the entries of a map.
#[derive(Clone, Copy)]
pub struct Entries<'a> {
    items: Items<'a>,
}

impl<'a> Entries<'a> {
    fn of(rest: &'a [u8]) -> Entries<'a>
        ensures { result.items.rest.now ≡ rest.now }
    {
        Entries {
            items: Items { rest },
        }
    }
}

impl<'a> Iterator for Entries<'a> {
    type Item = (Item<'a>, Item<'a>);

    ghost use Rattle.cbor_core.specs.Seen.{span_of, entries_left};

    ghost next_gives = { YieldsFirstBy (λ e. (span_of e.0, span_of e.1)) entries_left };

    ghost remaining = { item_count entries_left };

    fn next(&mut self) -> Option<(Item<'a>, Item<'a>)> {
        let key = self.items.next()?;
        let value = self.items.next()?;
        Some((key, value))
    }
}
