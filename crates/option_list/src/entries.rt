// Reading the entries of a token.
ghost use Rattle.std.specs.Prelude.{◌≡◌, ◌==◌, map, IfOk, option_map};
ghost use Rattle.std.specs.List.{slice_split};
ghost use Rattle.option_list.specs.Token.{entry_text, entries_text};
ghost use Rattle.option_list.specs.Form.{IsEntry, IsEach, Reads};
ghost use Rattle.option_list.specs.code.Entries.{entry_in, are_known, picks_named};

use crate::picks::read_picks;
use admitted_answers::NoMemory;
use dcql_answers::Pick;
use dcql_query::{Query, is_id};
use std::alloc::{AllocError, Global};

// What a token says of one credential query.
#[derive(Drop)]
pub(crate) struct Entry<'t> {
    pub(crate) id: &'t str,
    pub(crate) picks: Vec<Pick>,
}

// One or more entries, joined by `+`.
pub(crate) fn read_entries<'t>(
    alloc: Global,
    text: &'t str,
) -> Result<Option<Vec<Entry<'t>>>, NoMemory>
    ensures { IfOk result (λ r.
        Reads (IsEach IsEntry) entries_text text.now (option_map (λ v. map entry_in v.items) r)) }
{
    let parts = parts(alloc, text)?;
    let mut entries = Vec::new(alloc);
    for part in &parts {
        let Some(entry) = read_entry(alloc, part)? else {
            return Ok(None);
        };
        entries.push(entry)?;
    }
    Ok(Some(entries))
}

fn parts<'t>(alloc: Global, text: &'t str) -> Result<Vec<&'t str>, AllocError>
    ensures { IfOk result (λ v. map (λ s. s.now) v.items ≡ slice_split (λ b. b == 43) text.now) }
{
    text.split('+').collect(alloc)
}

// An id and picks, joined by `:`.
fn read_entry<'t>(alloc: Global, text: &'t str) -> Result<Option<Entry<'t>>, NoMemory>
    ensures { IfOk result (λ r. Reads IsEntry entry_text text.now (option_map entry_in r)) }
{
    let Some((id, picks)) = text.split_once(':') else {
        return Ok(None);
    };
    if !is_id(id) {
        return Ok(None);
    }
    match read_picks(alloc, picks)? {
        Some(picks) => Ok(Some(Entry { id, picks })),
        None => Ok(None),
    }
}

// Whether each id is that of a credential query.
pub(crate) fn are_known(query: &Query, entries: &[Entry]) -> bool
    ensures { result ≡ are_known query.now.credentials (map entry_in entries.now) }
{
    let Some((first, rest)) = entries.split_first() else {
        return true;
    };
    query.place_of(first.id).is_some() && are_known(query, rest)
}

// The picks of the first entry that has this id, none where there is no such entry.
pub(crate) fn picks_named<'e>(entries: &'e [Entry], id: &str) -> &'e [Pick]
    ensures { result.now ≡ picks_named (map entry_in entries.now) id.now }
{
    let Some((first, rest)) = entries.split_first() else {
        return &[];
    };
    if id == first.id {
        first.picks.as_slice()
    } else {
        picks_named(rest, id)
    }
}
