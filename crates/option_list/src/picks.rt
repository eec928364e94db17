// Reading the picks of a token.
ghost use Rattle.std.specs.Prelude.{◌≡◌, ◌==◌, map, IfOk, option_map, decimal};
ghost use Rattle.std.specs.List.{slice_split};
ghost use Rattle.option_list.specs.Token.{pick_text, picks_text};
ghost use Rattle.option_list.specs.Form.{IsSmallNumber, IsSmall, IsEach, Reads};

use admitted_answers::NoMemory;
use dcql_answers::Pick;
use itoa::Buffer;
use std::alloc::{AllocError, Global};

// One or more picks, joined by `,`.
pub(crate) fn read_picks(alloc: Global, text: &str) -> Result<Option<Vec<Pick>>, NoMemory>
    ensures { IfOk result (λ r. Reads (IsEach IsSmall) picks_text text.now (option_map (λ v. v.items) r)) }
{
    let parts = parts(alloc, text)?;
    let mut picks = Vec::new(alloc);
    for part in &parts {
        match read_pick(part) {
            Some(pick) => picks.push(pick)?,
            None => return Ok(None),
        }
    }
    Ok(Some(picks))
}

fn parts<'t>(alloc: Global, text: &'t str) -> Result<Vec<&'t str>, AllocError>
    ensures { IfOk result (λ v. map (λ s. s.now) v.items ≡ slice_split (λ b. b == 44) text.now) }
{
    text.split(',').collect(alloc)
}

fn read_pick(text: &str) -> Option<Pick>
    ensures { Reads IsSmall pick_text text.now result }
{
    let Some((credential, set)) = text.split_once('.') else {
        return None;
    };
    let Some(credential) = read_number(credential) else {
        return None;
    };
    match read_number(set) {
        Some(set) => Some(Pick { credential, set }),
        None => None,
    }
}

// A decimal number without leading zeros.
fn read_number(text: &str) -> Option<u16>
    ensures { Reads IsSmallNumber decimal text.now result }
{
    let Ok(number) = text.parse::<u16>() else {
        return None;
    };
    let mut buffer = Buffer::new();
    if buffer.format(number) == text {
        Some(number)
    } else {
        None
    }
}
