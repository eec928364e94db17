// Reading the token of an answer.
ghost use Rattle.std.specs.Prelude.{◌≡◌, ◌↔◌, map, length, IfOk, IfErr, IsTrue, List};
ghost use Rattle.dcql_answers.specs.declared.pick.Pick.{Pick};
ghost use Rattle.dcql_query.specs.WellFormed.{IsQuery};
ghost use Rattle.admitted_answers.specs.Admits.{Admits};
ghost use Rattle.option_list.specs.Token.{token_of};
ghost use Rattle.option_list.specs.Rules.{HasSmallPicks, IsRefused, IsReadAs};
ghost use Rattle.option_list.specs.code.Entries.{entry_in, lists_named};

use crate::entries::{Entry, are_known, picks_named, read_entries};
use crate::error::Error;
use crate::write::token;
use admitted_answers::{NoMemory, is_admitted};
use dcql_answers::{Answer, Fits, Pick};
use dcql_query::{CredentialQuery, Query};
use std::alloc::Global;

/// The admitted answer that has this token.
///
/// # Errors
///
/// [`Error::Refused`] with the least rule that is broken, of the three that [`Error::Refused`] lists.
///
/// [`Error::NoMemory`] where it is out of memory.
pub fn read_token(alloc: Global, query: &Query, fits: &Fits, text: &str) -> Result<Answer, Error>
    ensures admitted { IfOk result (λ a. Admits query.now fits.now a) }
    ensures token { IfOk result (λ a. token_of query.now a ≡ text.now) }
    ensures refused { IfErr result (λ e. IsRefused query.now fits.now text.now e) }
    ensures back { (a : List (List Pick)) → Admits query.now fits.now a → HasSmallPicks a →
        token_of query.now a ≡ text.now → IsReadAs result a }
    ensures small { IfOk result HasSmallPicks }
    ensures well_formed { IsQuery query.now }
{
    let queries = query.credentials();
    let Some(entries) = read_entries(alloc, text)? else {
        return Err(Error::Refused(1));
    };
    if !are_known(query, &entries) {
        return Err(Error::Refused(2));
    }
    let answer = answer_of(alloc, queries, &entries)?;
    if is_named(alloc, query, fits, &answer, text)? {
        Ok(answer)
    } else {
        Err(Error::Refused(3))
    }
}

// Whether an answer is admitted and has this token.
fn is_named(
    alloc: Global,
    query: &Query,
    fits: &Fits,
    answer: &Answer,
    text: &str,
) -> Result<bool, NoMemory>
    ensures { IfOk result (λ t. IsTrue t ↔
        (Admits query.now fits.now answer.now × (token_of query.now answer.now ≡ text.now))) }
{
    if !is_admitted(query, fits, answer) {
        return Ok(false);
    }
    let token = token(alloc, query, answer)?;
    Ok(token.as_str() == text)
}

// The answer to these credential queries that has the picks which stand with their ids.
fn answer_of(
    alloc: Global,
    queries: &[CredentialQuery],
    entries: &[Entry],
) -> Result<Answer, NoMemory>
    ensures { IfOk result (λ a. a ≡ lists_named queries.now (map entry_in entries.now)) }
{
    let mut lists = Vec::new(alloc);
    for query in queries {
        lists.push(Vec::from_slice(alloc, picks_named(entries, query.id()))?)?;
    }
    Ok(Answer::from_lists(lists))
}
