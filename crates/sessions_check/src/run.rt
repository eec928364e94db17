// A run of the program.
ghost use Rattle.std.specs.Prelude.{◌≡◌};
ghost use Rattle.std.specs.Io.KnownBytes.{Keeps};

use crate::answers::{Fault, answers};
use std::alloc::Global;
use std::io::{ErrorKind, Read, Write};

/// Every event was answered.
pub const DONE: u8 = 0;
/// The input was not read, or is not UTF-8, or the output was not written.
pub const FAULT: u8 = 1;
/// A line is no event. Nothing was written.
pub const NO_EVENT: u8 = 2;
/// Out of memory. Nothing was written.
pub const NO_MEMORY: u8 = 15;

/// Writes the replies to the events of the input, and gives the exit code: `DONE`, `FAULT`, `NO_EVENT` or
/// `NO_MEMORY`.
pub fn run<R: Read, W: Write>(alloc: Global, input: &mut R, output: &mut W) -> u8
    ensures no_event { result ≡ NO_EVENT → Keeps (W.contents output.old) (W.contents output.new) }
    ensures no_memory { result ≡ NO_MEMORY → Keeps (W.contents output.old) (W.contents output.new) }
{
    let mut text = String::new(alloc);
    match input.read_to_string(&mut text) {
        Ok(_) => answer_text(alloc, &text, output),
        Err(error) if error.kind() == ErrorKind::OutOfMemory => NO_MEMORY,
        Err(_) => FAULT,
    }
}

// Writes the replies to the events of the text.
fn answer_text<W: Write>(alloc: Global, text: &str, output: &mut W) -> u8
    ensures no_event { result ≡ NO_EVENT → Keeps (W.contents output.old) (W.contents output.new) }
    ensures no_memory { result ≡ NO_MEMORY → Keeps (W.contents output.old) (W.contents output.new) }
{
    match answers(alloc, text) {
        Ok(answers) => write_answers(&answers, output),
        Err(Fault::NoEvent) => NO_EVENT,
        Err(Fault::NoMemory) => NO_MEMORY,
    }
}

fn write_answers<W: Write>(answers: &str, output: &mut W) -> u8
    ensures no_event { result ≡ NO_EVENT → Keeps (W.contents output.old) (W.contents output.new) }
    ensures no_memory { result ≡ NO_MEMORY → Keeps (W.contents output.old) (W.contents output.new) }
{
    match output.write_all(answers.as_bytes()) {
        Ok(()) => DONE,
        Err(_) => FAULT,
    }
}
