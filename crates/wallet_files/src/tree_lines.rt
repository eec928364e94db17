// The lines of a trees file. One tree is in memory at a time.
ghost use Rattle.std.specs.Prelude.{◌≡◌, ◌≤◌, ◌<◌, ◌+◌, ◌++◌, [], ◌∷◌, ℕ, List, None, true, length, is_some};
ghost use Rattle.std.specs.Prelude.{IfOk, IfErr, string_bytes, codes, if◌then◌else◌};
ghost use Rattle.std.specs.Option.{option_copied};
ghost use Rattle.claim_tree.specs.Accepted.{accepted};
ghost use Rattle.base_forms.specs.Lines.{lines_of};
ghost use Rattle.wallet_files.specs.TreeLines.{bad_line, bad_trees, has_wanted, is_match, matching};
ghost use Rattle.wallet_files.specs.TreeLines.{match_lines};
ghost use Rattle.wallet_files.specs.TreeLines.{match_line};
ghost use Rattle.base_forms.specs.Lines.{IsBadLine};

use crate::matching::is_met;
use base_forms::{LineError, cut_line};
use claim_tree::{ClaimView, Error, PlainTree};
use dcql_query::CredentialQuery;
use program_steps::text_of;
use std::alloc::{AllocError, Global};

const MOST_LINES: u64 = 1024;

/// The line `match N` for each line of the file, from 0, whose tree has what is wanted, if anything is.
///
/// # Errors
///
/// Line 1 where the bytes are no text; the first line that is no claim tree or stands past the limit of
/// 1,024; out of memory.
pub fn matches_in(
    alloc: Global,
    bytes: &[u8],
    wanted: Option<&CredentialQuery>,
) -> Result<String, LineError>
    ensures passed { IfOk result (λ _. bad_trees bytes.now ≡ None) }
    ensures found { IfOk result (λ found.
        string_bytes found ≡ match_lines (matching (option_copied wanted.entry) 0 (lines_of bytes.now))) }
    ensures refused { IfErr result (λ error. IsBadLine (bad_trees bytes.now) error) }
{
    match text_of(bytes) {
        Some(text) => matches(alloc, text, wanted),
        None => Err(LineError::Refused(1)),
    }
}

fn matches(alloc: Global, text: &str, wanted: Option<&CredentialQuery>) -> Result<String, LineError>
    ensures lines { IfOk result (λ _. bad_line 1 (lines_of text.now) ≡ None) }
    ensures found { IfOk result (λ found.
        string_bytes found ≡ match_lines (matching (option_copied wanted.entry) 0 (lines_of text.now))) }
    ensures refused { IfErr result (λ error. IsBadLine (bad_line 1 (lines_of text.now)) error) }
{
    let mut found = String::new(alloc);
    let mut number = 0;
    let mut rest = text;
    while !rest.is_empty() {
        let (line, after) = cut_line(rest);
        if is_match(alloc, line, number, wanted)? {
            add_match(&mut found, number)?;
        }
        number += 1;
        rest = after;
    }
    Ok(found)
}

// Whether the line with this number, from 0, matches.
fn is_match(
    alloc: Global,
    text: &str,
    number: u64,
    wanted: Option<&CredentialQuery>,
) -> Result<bool, LineError>
    requires { number ≤ 1024 }
    ensures matches { IfOk result (λ matches. matches ≡ is_match (option_copied wanted.entry) text.now) }
    ensures within { IfOk result (λ _. number < 1024) }
    ensures tree { IfOk result (λ _. is_some (accepted text.now) ≡ true) }
    ensures refused { IfErr result (λ error. (texts : List (List ℕ))
        → IsBadLine (bad_line (number + 1) (text.now ∷ texts)) error) }
{
    if number >= MOST_LINES {
        return Err(LineError::Refused(number + 1));
    }
    match PlainTree::read(alloc, text) {
        Ok(tree) => Ok(has_wanted(wanted, tree.root())),
        Err(Error::Refused(_)) => Err(LineError::Refused(number + 1)),
        Err(Error::NoMemory) => Err(LineError::NoMemory),
    }
}

fn has_wanted<'a, V: ClaimView<'a>>(wanted: Option<&CredentialQuery>, view: V) -> bool
    ensures { result ≡ has_wanted (option_copied wanted.entry) (V.tree view) }
{
    match wanted {
        Some(query) => is_met(query, view),
        None => false,
    }
}

/// Adds the line of a number that matches.
pub fn add_match(text: &mut String, number: u64) -> Result<(), AllocError>
    ensures { IfOk result (λ _. string_bytes text.new ≡ string_bytes text.old ++ match_line number) }
{
    write!(text, "match {number}\n")?;
    Ok(())
}
