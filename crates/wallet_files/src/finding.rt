// What a credential of the wallet comes to.

/// What a credential of the wallet comes to.
#[derive(Clone, Copy, Debug, PartialEq, Eq)]
pub enum Finding {
    /// It is no credential of its format, by the rule of this number; 0 where its file is no text.
    Unreadable(u8),
    /// Its claim tree has what the query wants.
    Match,
    /// Its claim tree lacks what the query wants, or the query wants nothing.
    NoMatch,
}
