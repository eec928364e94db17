// The page of answers to a query.
ghost use Rattle.std.specs.Prelude.{◌≡◌, ◌<◌, ◌≤◌, IfOk, IfErr, option_map, string_bytes};
ghost use Rattle.fit_table.specs.Wallet.{slots_in};
ghost use Rattle.options_files.specs.Contents.{slots_of};
ghost use Rattle.program_steps.specs.code.Endings.{ending, outcome};
ghost use Rattle.runs.specs.Runs.{Runs};
ghost use Rattle.runs.specs.World.{World};
ghost use Rattle.std.specs.List.{AllByRecursion};
ghost use Rattle.option_texts.specs.Lines.{HasLists};
ghost use Rattle.wallet_answers.specs.Listing.{Listing, page_of};
ghost use Rattle.wallet_options.specs.Options.{answer_tree, holding, page_outcome};
ghost use Rattle.wallet_options.specs.code.Errors.{IsNone};
ghost use Rattle.wallet_options.specs.code.Replies.{IsReplyTo};
ghost use Rattle.wallet_options.specs.code.AskedFor.{meant};

use crate::asked::Asked;
use crate::error::PageError;
use crate::refusals::not_an_option;
use dcql_query::Query;
use fit_table::{Wallet, fill};
use key_device::KeyDevice;
use option_texts::{NoMemory, add_page, notes};
use options_files::{CredentialFiles, wallet_of};
use outside::Status;
use program_steps::{Reply, Stop, reply_with_last};
use std::alloc::Global;
use wallet_answers::{OptionPage, page_after};

// The reply to what is asked of this query, with these credentials and keys, at this second.
pub(crate) fn page_reply<K: KeyDevice>(
    alloc: Global,
    asked: Asked<'_>,
    query: &Query,
    credentials: &CredentialFiles,
    now: u64,
    device: &K,
) -> Result<Reply, Stop>
    requires some { 0 < asked.count }
    requires few { asked.count ≤ 1000 }
    ensures { (listing : Listing) (w : World) → Runs (answer_tree listing (meant asked.entry) query.now
        (holding (slots_of credentials.now) (K.state device.now).held now)) w w (ending outcome result) }
{
    match page_for(alloc, asked, query, credentials, now, device) {
        Ok(reply) => Ok(reply),
        Err(PageError::Refused(rule)) => Err(Stop::Refused(not_an_option(alloc, rule)?)),
        Err(PageError::NoMemory) => Err(Stop::NoMemory),
    }
}

// The notes and the page.
fn page_for<K: KeyDevice>(
    alloc: Global,
    asked: Asked<'_>,
    query: &Query,
    credentials: &CredentialFiles,
    now: u64,
    device: &K,
) -> Result<Reply, PageError>
    requires some { 0 < asked.count }
    requires few { asked.count ≤ 1000 }
    ensures reply { (listing : Listing) → IfOk result (λ reply.
        IsReplyTo listing (meant asked.entry) query.now
        (holding (slots_of credentials.now) (K.state device.now).held now) (outcome reply)) }
    ensures refused { (listing : Listing) → IfErr result (λ error. IsNone (page_of listing query.now
        (holding (slots_of credentials.now) (K.state device.now).held now) (meant asked.entry).after asked.entry.count)
        error) }
{
    let wallet = wallet_of(alloc, credentials)?;
    let fits = fill(alloc, query, &wallet, now, device)?;
    let page = page_after(alloc, query, &fits, asked.after, asked.count)?;
    let text = notes(alloc, &wallet, now, device)?;
    Ok(with_page(alloc, asked.after, query, &wallet, text, &page)?)
}

// The notes, and then the page, or that there is no answer at all.
fn with_page(
    alloc: Global,
    after: Option<&str>,
    query: &Query,
    wallet: &Wallet<'_>,
    notes: String,
    page: &OptionPage,
) -> Result<Reply, NoMemory>
    requires { AllByRecursion (HasLists query.now) page.now.answers }
    ensures { IfOk result (λ reply. outcome reply ≡ page_outcome (option_map (λ token. token.now) after.entry)
        (string_bytes notes) (slots_in wallet.now) query.now
        (record { answers = page.now.answers; end = page.now.end })) }
{
    if after.is_none() && page.answers.len() == 0 {
        return Ok(reply_with_last(notes, Status::NoOption, "none access_denied\n")?);
    }
    let mut text = notes;
    add_page(alloc, &mut text, query, wallet, page)?;
    Ok(Reply {
        status: Status::Done,
        text,
    })
}
