// Where a payload stands.

/// Where the payload of a message is expected.
#[derive(Clone, Copy, PartialEq, Eq, Debug)]
pub enum Payload {
    /// In the message itself.
    Inside,
    /// Elsewhere: null stands in its place.
    Detached,
}
