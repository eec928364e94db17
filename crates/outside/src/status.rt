// How a program ends.
ghost use Rattle.std.specs.Prelude.{◌≡◌};
ghost use Rattle.outside.specs.Status.{code_of};

/// How a program ends.
#[derive(Clone, Copy, Debug, PartialEq, Eq)]
pub enum Status {
    /// All was done as defined.
    Done,
    /// The words are no command.
    Usage,
    /// The request or the query breaks a rule.
    RequestRefused,
    /// A token names no answer that is admitted.
    NotAnOption,
    /// There is nothing to choose from.
    NoOption,
    /// A file could not be read.
    ReadFault,
    /// The text could not be written.
    WriteFault,
    /// The device of keys failed.
    DeviceFault,
    /// The clock failed.
    ClockFault,
    /// A line of a file is not of the file's form.
    FileRefused,
    /// A file has more bytes than its limit.
    TooLong,
    /// Out of memory.
    NoMemory,
    /// The query has no credential query, or more than one.
    NotOne,
    /// The device does not hold the key that is to sign.
    KeyMissing,
    /// The spec of a test credential breaks a rule.
    SpecRefused,
}

impl Status {
    /// The exit status of the program. Takes no memory.
    pub fn code(self) -> u8
        ensures { result ≡ code_of self }
    {
        match self {
            Status::Done => 0,
            Status::Usage => 2,
            Status::RequestRefused => 3,
            Status::NotAnOption => 4,
            Status::NoOption => 5,
            Status::ReadFault => 6,
            Status::WriteFault => 7,
            Status::DeviceFault => 8,
            Status::ClockFault => 9,
            Status::FileRefused => 12,
            Status::TooLong => 14,
            Status::NoMemory => 15,
            Status::NotOne => 17,
            Status::KeyMissing | Status::SpecRefused => 18,
        }
    }
}
