// A run of the program.
ghost use Rattle.std.specs.Prelude.{◌≡◌, IfSome};
ghost use Rattle.std.specs.Io.KnownBytes.{Appends, Keeps};
ghost use Rattle.base_forms.specs.Lines.{lines_of};
ghost use Rattle.cbor_check.specs.Answers.{answers};

use crate::answers::answers;
use std::alloc::Global;
use std::io::{ErrorKind, Read, Write};

/// Every line was answered.
pub const DONE: u8 = 0;
/// The input was not read, or is not UTF-8, or the output was not written.
pub const FAULT: u8 = 1;
/// Out of memory. Nothing was written.
pub const NO_MEMORY: u8 = 15;

/// Writes the answer to each line of the input, and gives the exit code: `DONE`, `FAULT` or `NO_MEMORY`.
pub fn run<R: Read, W: Write>(alloc: Global, input: &mut R, output: &mut W) -> u8
    ensures answered { result ≡ DONE → IfSome (R.remaining input.old) (λ text.
        Appends (W.contents output.old) (W.contents output.new) (answers (lines_of text))) }
    ensures quiet { result ≡ NO_MEMORY → Keeps (W.contents output.old) (W.contents output.new) }
{
    let mut text = String::new(alloc);
    match input.read_to_string(&mut text) {
        Ok(_) => answer_text(alloc, &text, output),
        Err(error) if error.kind() == ErrorKind::OutOfMemory => NO_MEMORY,
        Err(_) => FAULT,
    }
}

// Writes the answer to each line of the text.
fn answer_text<W: Write>(alloc: Global, text: &str, output: &mut W) -> u8
    ensures answered { result ≡ DONE
        → Appends (W.contents output.old) (W.contents output.new) (answers (lines_of text.now)) }
    ensures quiet { result ≡ NO_MEMORY → Keeps (W.contents output.old) (W.contents output.new) }
{
    let Ok(answers) = answers(alloc, text) else {
        return NO_MEMORY;
    };
    match output.write_all(answers.as_bytes()) {
        Ok(()) => DONE,
        Err(_) => FAULT,
    }
}
