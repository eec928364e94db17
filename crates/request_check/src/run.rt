// A run of the program.
ghost use Rattle.std.specs.Prelude.{◌≡◌};
ghost use Rattle.std.specs.Io.KnownBytes.{Keeps};

use crate::answers::{Fault, answers};
use std::alloc::Global;
use std::io::{ErrorKind, Read, Write};

/// Every request was answered.
pub const DONE: u8 = 0;
/// The input was not read, or is not UTF-8, or the output was not written.
pub const FAULT: u8 = 1;
/// The keys or the clients are not of their form. Nothing was written.
pub const NO_FORM: u8 = 2;
/// Out of memory. Nothing was written.
pub const NO_MEMORY: u8 = 15;

/// Writes the answers to the requests of the input, and gives the exit code: `DONE`, `FAULT`, `NO_FORM` or
/// `NO_MEMORY`.
pub fn run<R: Read, W: Write>(alloc: Global, input: &mut R, output: &mut W) -> u8
    ensures no_form { result ≡ NO_FORM → Keeps (W.contents output.old) (W.contents output.new) }
    ensures no_memory { result ≡ NO_MEMORY → Keeps (W.contents output.old) (W.contents output.new) }
{
    let mut text = String::new(alloc);
    if let Err(error) = input.read_to_string(&mut text) {
        return if error.kind() == ErrorKind::OutOfMemory {
            NO_MEMORY
        } else {
            FAULT
        };
    }
    match answers(alloc, &text) {
        Ok(answers) => write_answers(&answers, output),
        Err(Fault::NoForm) => NO_FORM,
        Err(Fault::NoMemory) => NO_MEMORY,
    }
}

fn write_answers<W: Write>(answers: &str, output: &mut W) -> u8
    ensures no_form { result ≡ NO_FORM → Keeps (W.contents output.old) (W.contents output.new) }
    ensures no_memory { result ≡ NO_MEMORY → Keeps (W.contents output.old) (W.contents output.new) }
{
    match output.write_all(answers.as_bytes()) {
        Ok(()) => DONE,
        Err(_) => FAULT,
    }
}
