// The wallet file.
ghost use Rattle.std.specs.Prelude.{◌≡◌, ◌≤◌, ◌<◌, ◌+◌, ◌∷◌, ℕ, List, Some, None, length, map, IfOk};
ghost use Rattle.std.specs.Prelude.{IfErr, option_map};
ghost use Rattle.base_forms.specs.Lines.{lines_of};
ghost use Rattle.program_steps.specs.code.Endings.{ending};
ghost use Rattle.runs.specs.Runs.{Runs};
ghost use Rattle.runs.specs.World.{World};
ghost use Rattle.wallet_files.specs.Wallet.{format_named, entry_of, bad_entry, bad_wallet, entries_of};
ghost use Rattle.wallet_files.specs.Wallet.{read_wallet};
ghost use Rattle.base_forms.specs.Lines.{IsBadLine};
ghost use Rattle.wallet_files.specs.code.Entries.{meant, meant_parts};

use crate::line_stops::line_stop;
use base_forms::{LineError, cut_line};
use claim_tree::Format;
use outside::Store;
use program_steps::{FILE_LIMIT, Stop, read_file, text_of};
use std::alloc::Global;

const MOST_CREDENTIALS: u64 = 64;

/// A credential of the wallet: its format, and the name of its file.
#[derive(Drop)]
pub struct Entry {
    pub format: Format,
    pub file: String,
}

/// The entries of a wallet file, of which there are at most 64.
///
/// # Errors
///
/// A refusal of the file; a fault of the store; out of memory.
pub fn read_wallet<S: Store>(alloc: Global, store: &mut S, name: &str) -> Result<Vec<Entry>, Stop>
    ensures runs { (w : World) → Runs (read_wallet name.now) (record w { store = S.state store.old })
        (record w { store = S.state store.new }) (ending (λ entries. map meant entries.items) result) }
    ensures few { IfOk result (λ entries. length entries.items ≤ 64) }
{
    let bytes = read_file(alloc, store, name, FILE_LIMIT)?;
    match entries_in(alloc, &bytes) {
        Ok(entries) => Ok(entries),
        Err(error) => Err(line_stop(alloc, name, error)),
    }
}

// The entries of a wallet file with these bytes.
fn entries_in(alloc: Global, bytes: &[u8]) -> Result<Vec<Entry>, LineError>
    ensures passed { IfOk result (λ _. bad_wallet bytes.now ≡ None) }
    ensures entries { IfOk result (λ entries. map meant entries.items ≡ entries_of (lines_of bytes.now)) }
    ensures few { IfOk result (λ entries. length entries.items ≤ 64) }
    ensures refused { IfErr result (λ error. IsBadLine (bad_wallet bytes.now) error) }
{
    match text_of(bytes) {
        Some(text) => entries(alloc, text),
        None => Err(LineError::Refused(1)),
    }
}

fn entries(alloc: Global, text: &str) -> Result<Vec<Entry>, LineError>
    ensures lines { IfOk result (λ _. bad_entry 1 (lines_of text.now) ≡ None) }
    ensures entries { IfOk result (λ entries. map meant entries.items ≡ entries_of (lines_of text.now)) }
    ensures few { IfOk result (λ entries. length entries.items ≤ 64) }
    ensures refused { IfErr result (λ error. IsBadLine (bad_entry 1 (lines_of text.now)) error) }
{
    let mut entries = Vec::new(alloc);
    let mut number = 0;
    let mut rest = text;
    while !rest.is_empty() {
        let (line, after) = cut_line(rest);
        entries.push(entry_at(alloc, line, number)?)?;
        number += 1;
        rest = after;
    }
    Ok(entries)
}

// The entry that the line with this number, from 0, is.
fn entry_at(alloc: Global, line: &str, number: u64) -> Result<Entry, LineError>
    requires { number ≤ 64 }
    ensures entry { IfOk result (λ entry. entry_of line.now ≡ Some (meant entry)) }
    ensures within { IfOk result (λ _. number < 64) }
    ensures refused { IfErr result (λ error. (lines : List (List ℕ))
        → IsBadLine (bad_entry (number + 1) (line.now ∷ lines)) error) }
{
    if number >= MOST_CREDENTIALS {
        return Err(LineError::Refused(number + 1));
    }
    match entry_parts(line) {
        Some((format, file)) => Ok(Entry {
            format,
            file: String::from_str(alloc, file)?,
        }),
        None => Err(LineError::Refused(number + 1)),
    }
}

// The format and the name that a line gives.
fn entry_parts(line: &str) -> Option<(Format, &str)>
    ensures { option_map meant_parts result ≡ entry_of line.now }
{
    let (word, file) = line.split_once(' ')?;
    let format = format_named(word)?;
    if file.is_empty() {
        return None;
    }
    Some((format, file))
}

fn format_named(word: &str) -> Option<Format>
    ensures { result ≡ format_named word.now }
{
    if word == "dc+sd-jwt" {
        Some(Format::SdJwt)
    } else if word == "mso_mdoc" {
        Some(Format::Mdoc)
    } else {
        None
    }
}
