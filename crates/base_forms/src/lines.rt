// The lines of a text, and why they are refused.
ghost use Rattle.std.specs.Prelude.{◌≡◌, ◌∷◌, ◌<◌, length};
ghost use Rattle.base_forms.specs.Lines.{lines_of};
ghost use Rattle.base_forms.specs.declared.lines.LineError.TheVariants.{NoMemory};

use std::alloc::{AllocError, AllocFailed};

/// The first line, without its line feed, and the text after it. Takes no memory.
///
/// Unlike `str::lines` it leaves a carriage return in the line.
pub fn cut_line(text: &str) -> (&str, &str)
    requires { 0 < length text.now }
    ensures lines { lines_of text.now ≡ result.0.now ∷ lines_of result.1.now }
    ensures less { length result.1.now < length text.now }
{
    match text.split_once('\n') {
        Some((line, rest)) => (line, rest),
        None => (text, ""),
    }
}

/// Why the lines of a text are not read.
#[derive(Clone, Copy, Debug, PartialEq, Eq)]
pub enum LineError {
    /// The number, from 1, of the first line that is not of the form, or that stands past the most lines
    /// there may be.
    Refused(u64),
    /// Out of memory.
    NoMemory,
}

impl From<AllocError> for LineError {
    ghost from_gives = { λ _ e. e ≡ NoMemory };

    fn from(_: AllocError) -> Self {
        LineError::NoMemory
    }
}

impl<T: Drop> From<AllocFailed<T>> for LineError {
    ghost from_gives = { λ _ e. e ≡ NoMemory };

    fn from(_: AllocFailed<T>) -> Self {
        LineError::NoMemory
    }
}
