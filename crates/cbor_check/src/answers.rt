// The lines that the program prints.
ghost use Rattle.std.specs.Prelude.{◌≡◌, ◌++◌, ◌<◌, length, IfOk, string_bytes};
ghost use Rattle.base_forms.specs.Lines.{lines_of};
ghost use Rattle.cbor_check.specs.Answers.{answers, shown, line};

use crate::verdict::{NoMemory, Verdict, describe};
use base_forms::cut_line;
use std::alloc::{AllocError, Global};

/// The answer to each line of the text, one a line.
pub fn answers(alloc: Global, text: &str) -> Result<String, NoMemory>
    ensures { IfOk result (λ found. string_bytes found ≡ answers (lines_of text.now)) }
{
    let mut found = String::new(alloc);
    let mut rest = text;
    while !rest.is_empty() {
        let (line, after) = cut_line(rest);
        let verdict = describe(alloc, line)?;
        add_verdict(&mut found, verdict)?;
        rest = after;
    }
    Ok(found)
}

// Adds a line with the verdict.
fn add_verdict(text: &mut String, verdict: Verdict) -> Result<(), AllocError>
    ensures { IfOk result (λ _. string_bytes text.new ≡ string_bytes text.old ++ line (shown verdict)) }
{
    match verdict {
        Verdict::Read => write!(text, "read\n"),
        Verdict::Refused(rule) => write!(text, "{rule}\n"),
        Verdict::NoHexadecimal => write!(text, "no hexadecimal\n"),
    }
}
