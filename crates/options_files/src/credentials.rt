// The credential files of a wallet.
ghost use Rattle.std.specs.Prelude.{◌≡◌, ◌≤◌, length, map, IfOk};
ghost use Rattle.options_files.specs.Reading.{read_content, read_credentials};
ghost use Rattle.options_files.specs.code.Meant.{meant};
ghost use Rattle.program_steps.specs.code.Endings.{ending};
ghost use Rattle.runs.specs.Runs.{Runs};
ghost use Rattle.runs.specs.Tree.{each};
ghost use Rattle.runs.specs.World.{World};
ghost use Rattle.wallet_files.specs.code.Entries.{meant as meant_entry};

use crate::content::{Content, content_of};
use outside::Store;
use program_steps::{Stop, read_file};
use std::alloc::Global;
use std::marker::Model;
use wallet_files::{CREDENTIAL_LIMIT, Entry, read_wallet};

/// What the credential files of a wallet hold, at most 64 of them, in the order of the wallet file. Contracts
/// see it as a list.
#[derive(Drop)]
pub struct CredentialFiles {
    contents: Vec<Content>,
}

impl Model for CredentialFiles {
    ghost use Rattle.std.specs.Prelude.{◌≤◌, List, length, map};
    ghost use Rattle.options_files.specs.Contents.{Content as Held};
    ghost use Rattle.options_files.specs.code.Meant.{meant};

    ghost Value = { List Held };

    ghost view = { λ f. map meant f.contents.items };

    ghost invariant = { λ f. length f.contents.items ≤ 64 };
}

impl CredentialFiles {
    /// What each of them holds.
    pub(crate) fn contents(&self) -> &[Content]
        ensures contents { map meant result.now ≡ self.now }
        ensures few { length result.now ≤ 64 }
    {
        &self.contents
    }
}

/// Reads a wallet file, and then the credential files that it names. A credential file that holds no
/// credential of its format is kept as one that does not.
///
/// # Errors
///
/// A refusal of the wallet file, or of a credential file that has more than [`CREDENTIAL_LIMIT`] bytes; a
/// fault of the store; out of memory.
pub fn read_credentials<S: Store>(
    alloc: Global,
    store: &mut S,
    wallet: &str,
) -> Result<CredentialFiles, Stop>
    ensures { (w : World) → Runs (read_credentials wallet.now) (record w { store = S.state store.old })
        (record w { store = S.state store.new }) (ending (λ files. files) result) }
{
    let entries = read_wallet(alloc, store, wallet)?;
    let contents = read_contents(alloc, store, &entries)?;
    Ok(CredentialFiles { contents })
}

// Reads the files of these entries, one after the other.
fn read_contents<S: Store>(
    alloc: Global,
    store: &mut S,
    entries: &[Entry],
) -> Result<Vec<Content>, Stop>
    ensures runs { (w : World) → Runs (each read_content (map meant_entry entries.now))
        (record w { store = S.state store.old }) (record w { store = S.state store.new })
        (ending (λ contents. map meant contents.items) result) }
    ensures count { IfOk result (λ contents. length contents.items ≤ length entries.now) }
{
    let mut contents = Vec::new(alloc);
    for entry in entries {
        let content = read_content(alloc, store, entry)?;
        contents.push(content)?;
    }
    Ok(contents)
}

// Reads the file of an entry.
fn read_content<S: Store>(alloc: Global, store: &mut S, entry: &Entry) -> Result<Content, Stop>
    ensures { (w : World) → Runs (read_content (meant_entry entry.now))
        (record w { store = S.state store.old }) (record w { store = S.state store.new })
        (ending meant result) }
{
    let bytes = read_file(alloc, store, entry.file.as_str(), CREDENTIAL_LIMIT)?;
    Ok(content_of(alloc, entry.format, bytes)?)
}
