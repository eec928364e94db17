// A credential file against a credential query.
ghost use Rattle.std.specs.Prelude.{◌≡◌, IfOk, option_map};
ghost use Rattle.std.specs.Option.{option_copied};
ghost use Rattle.claim_tree.specs.Tree.{Tree};
ghost use Rattle.program_steps.specs.code.Endings.{ending};
ghost use Rattle.runs.specs.Runs.{Runs};
ghost use Rattle.runs.specs.World.{World};
ghost use Rattle.wallet_files.specs.CredentialFile.{tree_finding, sd_finding, bytes_finding, without_feed};
ghost use Rattle.wallet_files.specs.CredentialFile.{document_in, file_finding, finding_for, read_credential};
ghost use Rattle.wallet_files.specs.code.Entries.{meant};

use crate::finding::Finding;
use crate::limits::CREDENTIAL_LIMIT;
use crate::matching::is_met;
use crate::wallet::Entry;
use base_forms::from_url64;
use claim_tree::{ClaimView, Format};
use dcql_query::CredentialQuery;
use mdoc_view::MdCredential;
use outside::Store;
use program_steps::{Stop, read_file, text_of};
use sdjwt_view::SdCredential;
use std::alloc::{AllocError, Global};

/// Reads the file of an entry, and says what the credential comes to.
///
/// # Errors
///
/// A file that is too long; a fault of the store; out of memory.
pub fn read_credential<S: Store>(
    alloc: Global,
    entry: &Entry,
    wanted: Option<&CredentialQuery>,
    store: &mut S,
) -> Result<Finding, Stop>
    ensures { (w : World) → Runs (read_credential (option_copied wanted.entry) (meant entry.now))
        (record w { store = S.state store.old }) (record w { store = S.state store.new }) (ending (λ finding.
        finding) result) }
{
    let bytes = read_file(alloc, store, entry.file.as_str(), CREDENTIAL_LIMIT)?;
    Ok(examine_for(alloc, wanted, entry.format, bytes)?)
}

// What a credential file of this format with these bytes comes to. Nothing is looked at where nothing is
// wanted.
fn examine_for(
    alloc: Global,
    wanted: Option<&CredentialQuery>,
    format: Format,
    bytes: Vec<u8>,
) -> Result<Finding, AllocError>
    ensures { IfOk result (λ finding. finding ≡ finding_for (option_copied wanted.entry) format bytes.items) }
{
    match wanted {
        Some(query) => examine(alloc, format, query, bytes),
        None => Ok(Finding::NoMatch),
    }
}

fn examine(
    alloc: Global,
    format: Format,
    query: &CredentialQuery,
    bytes: Vec<u8>,
) -> Result<Finding, AllocError>
    ensures { IfOk result (λ finding. finding ≡ file_finding format query.now bytes.items) }
{
    match format {
        Format::SdJwt => examine_text(alloc, query, &bytes),
        Format::Mdoc => examine_encoded(alloc, query, bytes),
    }
}

// A file that is to be the text of an SD-JWT credential.
fn examine_text(alloc: Global, query: &CredentialQuery, bytes: &[u8]) -> Result<Finding, AllocError>
    ensures { IfOk result (λ finding. finding ≡ file_finding Format.SdJwt query.now bytes.now) }
{
    match text_of(bytes) {
        Some(text) => examine_sd_jwt(alloc, query, without_feed(text)),
        None => Ok(Finding::Unreadable(0)),
    }
}

// A file that is to be the base64url of a mobile document. Its bytes are let go before the document is read.
fn examine_encoded(
    alloc: Global,
    query: &CredentialQuery,
    bytes: Vec<u8>,
) -> Result<Finding, AllocError>
    ensures { IfOk result (λ finding. finding ≡ file_finding Format.Mdoc query.now bytes.items) }
{
    let decoded = document_in(alloc, &bytes)?;
    drop(bytes);
    match decoded {
        Some(document) => examine_mdoc(alloc, query, &document),
        None => Ok(Finding::Unreadable(0)),
    }
}

/// A text without the line feed at its end, if it has one. Takes no memory.
pub fn without_feed(text: &str) -> &str
    ensures { result.now ≡ without_feed text.now }
{
    match text.strip_suffix('\n') {
        Some(front) => front,
        None => text,
    }
}

fn examine_sd_jwt(alloc: Global, query: &CredentialQuery, text: &str) -> Result<Finding, AllocError>
    ensures { IfOk result (λ finding. finding ≡ sd_finding query.now text.now) }
{
    match SdCredential::read(alloc, text) {
        Ok(credential) => Ok(match_of(query, credential.root())),
        Err(sdjwt_view::Error::Refused(rule)) => Ok(Finding::Unreadable(rule)),
        Err(sdjwt_view::Error::Envelope(_)) => Ok(Finding::Unreadable(2)),
        Err(sdjwt_view::Error::NoMemory) => Err(AllocError),
    }
}

/// The mobile document in a credential file with these bytes: the bytes of which its text is the base64url,
/// with or without one line feed at its end. None where the file is no such text.
///
/// # Errors
///
/// Out of memory.
pub fn document_in(alloc: Global, bytes: &[u8]) -> Result<Option<Vec<u8>>, AllocError>
    ensures { IfOk result (λ document. option_map (λ v. v.items) document ≡ document_in bytes.now) }
{
    let Some(text) = text_of(bytes) else {
        return Ok(None);
    };
    match from_url64(alloc, without_feed(text)) {
        Ok(document) => Ok(Some(document)),
        Err(base_forms::Error::Refused(_)) => Ok(None),
        Err(base_forms::Error::NoMemory) => Err(AllocError),
    }
}

fn examine_mdoc(alloc: Global, query: &CredentialQuery, bytes: &[u8]) -> Result<Finding, AllocError>
    ensures { IfOk result (λ finding. finding ≡ bytes_finding query.now bytes.now) }
{
    match MdCredential::read(alloc, bytes) {
        Ok(credential) => Ok(match_of(query, credential.root())),
        Err(mdoc_view::Error::Refused(rule)) => Ok(Finding::Unreadable(rule)),
        Err(mdoc_view::Error::Cbor(_)) => Ok(Finding::Unreadable(1)),
        Err(mdoc_view::Error::Cose(_)) => Ok(Finding::Unreadable(3)),
        Err(mdoc_view::Error::NoMemory) => Err(AllocError),
    }
}

fn match_of<'a, V: ClaimView<'a>>(query: &CredentialQuery, root: V) -> Finding
    ensures { result ≡ tree_finding query.now (V.tree root) }
{
    if is_met(query, root) {
        Finding::Match
    } else {
        Finding::NoMatch
    }
}
