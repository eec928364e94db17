//! The kinds of items.

/// The kind of an item.
#[derive(Clone, Copy, Debug, PartialEq, Eq)]
pub enum Kind {
    /// An integer, from -2^64 to 2^64 - 1.
    Whole,
    /// A byte string.
    Bytes,
    Text,
    List,
    Map,
    Tag,
    Truth,
    Null,
    /// A float, undefined, or an unassigned simple value.
    Other,
}
