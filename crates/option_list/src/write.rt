// Writing the token of an answer.
ghost use Rattle.std.specs.Prelude.{◌≡◌, ◌++◌, ◌∷◌, [], length, map, decimal, IfOk, string_bytes};
ghost use Rattle.option_list.specs.Token.{token_of, entries_of, entry_text, picks_text, pick_text};
ghost use Rattle.option_list.specs.code.Writing.{added, separated};

use admitted_answers::NoMemory;
use dcql_answers::{Answer, Pick};
use dcql_query::{CredentialQuery, Query};
use itoa::Buffer;
use std::alloc::Global;

/// The token of an answer: `ID:PICKS` for each credential query that has picks, in the order of the query,
/// joined by `+`. PICKS are `C.S` for each pick, joined by `,`, where C is the place of the credential and S
/// that of the claim set, both decimal and from 0.
///
/// # Errors
///
/// [`NoMemory`] where it is out of memory.
pub fn token(alloc: Global, query: &Query, answer: &Answer) -> Result<String, NoMemory>
    requires { length answer.now ≡ length query.now.credentials }
    ensures { IfOk result (λ s. string_bytes s ≡ token_of query.now answer.now) }
{
    let mut token = String::new(alloc);
    push_entries(&mut token, query.credentials(), answer.lists())?;
    Ok(token)
}

fn push_entries(
    token: &mut String,
    queries: &[CredentialQuery],
    lists: &[Vec<Pick>],
) -> Result<(), NoMemory>
    ensures { IfOk result (λ u. string_bytes token.new ≡
        added (string_bytes token.old) (entries_of queries.now (map (λ ps. ps.items) lists.now))) }
{
    let Some((query, queries)) = queries.split_first() else {
        return Ok(());
    };
    let Some((picks, lists)) = lists.split_first() else {
        return Ok(());
    };
    if !picks.is_empty() {
        separate(token)?;
        push_entry(token, query.id(), picks.as_slice())?;
    }
    push_entries(token, queries, lists)
}

// A `+` after what was written before.
fn separate(token: &mut String) -> Result<(), NoMemory>
    ensures { IfOk result (λ u. string_bytes token.new ≡ separated (string_bytes token.old)) }
{
    if !token.is_empty() {
        token.push_str("+")?;
    }
    Ok(())
}

fn push_entry(token: &mut String, id: &str, picks: &[Pick]) -> Result<(), NoMemory>
    ensures { IfOk result (λ u. string_bytes token.new ≡
        string_bytes token.old ++ entry_text (record { id = id.now; picks = picks.now })) }
{
    token.push_str(id)?;
    token.push_str(":")?;
    push_picks(token, picks)
}

fn push_picks(token: &mut String, picks: &[Pick]) -> Result<(), NoMemory>
    ensures { IfOk result (λ u. string_bytes token.new ≡ string_bytes token.old ++ picks_text picks.now) }
{
    let Some((first, rest)) = picks.split_first() else {
        return Ok(());
    };
    push_pick(token, first)?;
    if !rest.is_empty() {
        token.push_str(",")?;
    }
    push_picks(token, rest)
}

fn push_pick(token: &mut String, pick: &Pick) -> Result<(), NoMemory>
    ensures { IfOk result (λ u. string_bytes token.new ≡ string_bytes token.old ++ pick_text pick.now) }
{
    push_number(token, pick.credential)?;
    token.push_str(".")?;
    push_number(token, pick.set)
}

fn push_number(token: &mut String, number: u16) -> Result<(), NoMemory>
    ensures { IfOk result (λ u. string_bytes token.new ≡ string_bytes token.old ++ decimal number) }
{
    let mut buffer = Buffer::new();
    token.push_str(buffer.format(number))?;
    Ok(())
}
