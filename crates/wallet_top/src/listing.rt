// The command `list`: which credentials of a wallet match a query of one credential.
ghost use Rattle.std.specs.Prelude.{◌≡◌, ◌++◌, IfOk, map, string_bytes};
ghost use Rattle.std.specs.List.{list_any};
ghost use Rattle.std.specs.Option.{option_copied};
ghost use Rattle.program_steps.specs.code.Endings.{ending, outcome};
ghost use Rattle.runs.specs.Runs.{Runs};
ghost use Rattle.runs.specs.Tree.{each};
ghost use Rattle.runs.specs.World.{World};
ghost use Rattle.wallet_top.specs.Listing.{finding_line, finding_lines, is_match, listed, list_answer};
ghost use Rattle.wallet_top.specs.Listing.{list_tree};
ghost use Rattle.wallet_files.specs.CredentialFile.{read_credential};
ghost use Rattle.wallet_files.specs.code.Entries.{meant};

use dcql_query::{CredentialQuery, Query};
use outside::{Status, Store};
use program_steps::{Reply, Stop, reply_with_last};
use std::alloc::{AllocError, Global};
use wallet_files::{
    Entry, Finding, add_match, only, query_by, query_refusal, read_credential, read_query,
    read_wallet,
};

/// The reply to `list` with these names of a query file and a wallet file.
///
/// # Errors
///
/// A refusal of a file or of the query; a fault of the store; out of memory.
pub fn list_credentials<S: Store>(
    alloc: Global,
    query: &str,
    wallet: &str,
    store: &mut S,
) -> Result<Reply, Stop>
    ensures { (w : World) → Runs (list_tree query.now wallet.now) (record w { store = S.state store.old })
        (record w { store = S.state store.new }) (ending outcome result) }
{
    let value = read_query(alloc, store, query)?;
    let entries = read_wallet(alloc, store, wallet)?;
    let query = query_by(alloc, &value)?;
    let findings = read_credentials(alloc, &entries, only(&query), store)?;
    list_answer(alloc, &query, &findings)
}

// Reads the credentials, one after the other. One is in memory at a time.
fn read_credentials<S: Store>(
    alloc: Global,
    entries: &[Entry],
    wanted: Option<&CredentialQuery>,
    store: &mut S,
) -> Result<Vec<Finding>, Stop>
    ensures { (w : World) → Runs (each (read_credential (option_copied wanted.entry)) (map meant entries.now))
        (record w { store = S.state store.old }) (record w { store = S.state store.new }) (ending (λ findings.
        findings.items) result) }
{
    let mut findings = Vec::new(alloc);
    for entry in entries {
        let finding = read_credential(alloc, entry, wanted, store)?;
        findings.push(finding)?;
    }
    Ok(findings)
}

// The reply where all files are read: the query's refusal, or the list of these findings.
fn list_answer(
    alloc: Global,
    query: &Result<Query, u8>,
    findings: &[Finding],
) -> Result<Reply, Stop>
    ensures { (w : World) → Runs (list_answer query.now findings.now) w w (ending outcome result) }
{
    match query_refusal(alloc, query)? {
        Some(refusal) => Err(Stop::Refused(refusal)),
        None => Ok(listed(alloc, findings)?),
    }
}

// The lines of the findings, from 0, and `end`, or `none` where none of them is a match.
fn listed(alloc: Global, findings: &[Finding]) -> Result<Reply, AllocError>
    ensures { IfOk result (λ reply. outcome reply ≡ listed findings.now) }
{
    let text = finding_lines(alloc, findings)?;
    if has_match(findings) {
        reply_with_last(text, Status::Done, "end\n")
    } else {
        reply_with_last(text, Status::NoOption, "none\n")
    }
}

fn has_match(findings: &[Finding]) -> bool
    ensures { result ≡ list_any is_match findings.now }
{
    findings.iter().any(|finding| is_match(*finding))
}

fn is_match(finding: Finding) -> bool
    ensures { result ≡ is_match finding }
{
    match finding {
        Finding::Match => true,
        Finding::NoMatch | Finding::Unreadable(_) => false,
    }
}

fn finding_lines(alloc: Global, findings: &[Finding]) -> Result<String, AllocError>
    ensures { IfOk result (λ text. string_bytes text ≡ finding_lines 0 findings.now) }
{
    let mut text = String::new(alloc);
    let mut number = 0;
    for finding in findings {
        add_finding(&mut text, number, *finding)?;
        number += 1;
    }
    Ok(text)
}

// Adds the line of a credential with this number.
fn add_finding(text: &mut String, number: u64, finding: Finding) -> Result<(), AllocError>
    ensures { IfOk result (λ _.
        string_bytes text.new ≡ string_bytes text.old ++ finding_line number finding) }
{
    match finding {
        Finding::Unreadable(rule) => write!(text, "note {number} unreadable {rule}\n"),
        Finding::Match => add_match(text, number),
        Finding::NoMatch => Ok(()),
    }
}
