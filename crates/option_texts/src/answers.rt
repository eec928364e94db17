// The lines of a page of answers.
ghost use Rattle.std.specs.Prelude.{◌≡◌, ◌++◌, IfOk, map, string_bytes};
ghost use Rattle.std.specs.List.{AllByRecursion};
ghost use Rattle.fit_table.specs.Wallet.{slots_in};
ghost use Rattle.option_texts.specs.Lines.{HasLists, answer_lines, end_line, page_text, picks_lines};

use crate::error::NoMemory;
use crate::picks::add_picks;
use dcql_answers::{Answer, Pick};
use dcql_query::{CredentialQuery, Query};
use fit_table::Wallet;
use option_list::{OptionPage, token};
use std::alloc::{AllocError, Global};

/// Adds the lines of a page: for each answer its token, and for each of its picks the credential and the
/// addresses of what it shows, in ascending order. The last line says whether an answer follows.
///
/// # Errors
///
/// [`NoMemory`] where it is out of memory. What stands in the text then is not said.
pub fn add_page(
    alloc: Global,
    text: &mut String,
    query: &Query,
    wallet: &Wallet<'_>,
    page: &OptionPage,
) -> Result<(), NoMemory>
    requires { AllByRecursion (HasLists query.now) page.now.answers }
    ensures { IfOk result (λ _. string_bytes text.new ≡ string_bytes text.old
        ++ page_text (slots_in wallet.now) query.now page.now.answers page.now.end) }
{
    for i in 0..page.answers.len() {
        add_answer(alloc, text, query, wallet, page.answers.at(i))?;
    }
    Ok(add_end(text, page.end)?)
}

fn add_end(text: &mut String, end: bool) -> Result<(), AllocError>
    ensures { IfOk result (λ _. string_bytes text.new ≡ string_bytes text.old ++ end_line end) }
{
    text.push_str(if end { "end\n" } else { "more\n" })
}

// Adds the line of the answer's token, and those of its picks.
fn add_answer(
    alloc: Global,
    text: &mut String,
    query: &Query,
    wallet: &Wallet<'_>,
    answer: &Answer,
) -> Result<(), NoMemory>
    requires { HasLists query.now answer.now }
    ensures { IfOk result (λ _. string_bytes text.new
        ≡ string_bytes text.old ++ answer_lines (slots_in wallet.now) query.now answer.now) }
{
    let token = token(alloc, query, answer)?;
    write!(text, "option {token}\n")?;
    add_lists(alloc, text, query.credentials(), wallet, answer.lists())
}

// Adds the lines of the picks for each credential query.
fn add_lists(
    alloc: Global,
    text: &mut String,
    queries: &[CredentialQuery],
    wallet: &Wallet<'_>,
    lists: &[Vec<Pick>],
) -> Result<(), NoMemory>
    ensures { IfOk result (λ _. string_bytes text.new ≡ string_bytes text.old
        ++ picks_lines (slots_in wallet.now) queries.now (map (λ picks. picks.items) lists.now)) }
{
    let Some((query, queries)) = queries.split_first() else {
        return Ok(());
    };
    let Some((picks, lists)) = lists.split_first() else {
        return Ok(());
    };
    add_picks(alloc, text, query, wallet, picks.as_slice())?;
    add_lists(alloc, text, queries, wallet, lists)
}
