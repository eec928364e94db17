// An object that failed.

/// An object that was passed in and failed.
#[derive(Clone, Copy, Debug, PartialEq, Eq)]
pub enum Fault {
    /// The store.
    Read,
    /// The device of keys.
    Device,
    /// The clock.
    Clock,
    /// The sink.
    Write,
}
