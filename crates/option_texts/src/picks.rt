// The lines of picks.
ghost use Rattle.std.specs.Prelude.{◌≡◌, ◌<◌, ◌++◌, IfOk, length, string_bytes};
ghost use Rattle.std.specs.List.{flat_map};
ghost use Rattle.fit_table.specs.Credential.{meaning};
ghost use Rattle.fit_table.specs.Wallet.{slots_in};
ghost use Rattle.option_texts.specs.Lines.{credential_line, credential_lines, format_name, pick_lines};

use crate::addresses::{add_addresses, text_json};
use crate::error::NoMemory;
use claim_tree::Format;
use dcql_answers::Pick;
use dcql_query::CredentialQuery;
use fit_table::{Credential, Slot, Wallet};
use std::alloc::Global;

// Adds the lines of the picks for a credential query.
pub(crate) fn add_picks(
    alloc: Global,
    text: &mut String,
    query: &CredentialQuery,
    wallet: &Wallet<'_>,
    picks: &[Pick],
) -> Result<(), NoMemory>
    ensures { IfOk result (λ _. string_bytes text.new
        ≡ string_bytes text.old ++ flat_map (pick_lines (slots_in wallet.now) query.now) picks.now) }
{
    for pick in picks {
        add_pick(alloc, text, query, wallet, *pick)?;
    }
    Ok(())
}

// Adds nothing where the pick names no credential that was read, or no claim set of the query.
fn add_pick(
    alloc: Global,
    text: &mut String,
    query: &CredentialQuery,
    wallet: &Wallet<'_>,
    pick: Pick,
) -> Result<(), NoMemory>
    ensures { IfOk result (λ _. string_bytes text.new
        ≡ string_bytes text.old ++ pick_lines (slots_in wallet.now) query.now pick) }
{
    let place = pick.credential as usize;
    if pick.set as usize >= query.set_count() || place >= wallet.len() {
        return Ok(());
    }
    match wallet.slot(place) {
        Slot::Read(credential) => add_credential(alloc, text, query, pick, credential),
        Slot::Unread(_) => Ok(()),
    }
}

// Adds the line of the picked credential, and those of what it shows.
fn add_credential(
    alloc: Global,
    text: &mut String,
    query: &CredentialQuery,
    pick: Pick,
    credential: &Credential<'_>,
) -> Result<(), NoMemory>
    requires { pick.set < length query.now.sets }
    ensures { IfOk result (λ _. string_bytes text.new
        ≡ string_bytes text.old ++ credential_lines query.now pick (meaning credential.now)) }
{
    add_credential_line(alloc, text, query.id(), pick.credential, credential)?;
    let addresses = credential.shown(alloc, query, pick.set as usize)?;
    add_addresses(alloc, text, &addresses)
}

fn add_credential_line(
    alloc: Global,
    text: &mut String,
    id: &str,
    place: u16,
    credential: &Credential<'_>,
) -> Result<(), NoMemory>
    ensures { IfOk result (λ _. string_bytes text.new
        ≡ string_bytes text.old ++ credential_line id.now place (meaning credential.now)) }
{
    let facts = credential.facts();
    let format = format_name(facts.format);
    let kind = text_json(alloc, facts.kind)?;
    write!(text, "  {id} {place} {format} {kind}\n")?;
    Ok(())
}

fn format_name(format: Format) -> &'static str
    ensures { result.now ≡ format_name format }
{
    match format {
        Format::SdJwt => "dc+sd-jwt",
        Format::Mdoc => "mso_mdoc",
    }
}
