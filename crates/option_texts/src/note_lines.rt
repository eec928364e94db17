// The lines of the notes.
ghost use Rattle.std.specs.Prelude.{◌≡◌, ◌++◌, IfOk, string_bytes};
ghost use Rattle.fit_table.specs.Wallet.{slots_in};
ghost use Rattle.option_texts.specs.Notes.{slot_line, notes_text};

use crate::error::NoMemory;
use crate::slot_notes::{Note, note_of};
use fit_table::Wallet;
use key_device::KeyDevice;
use std::alloc::{AllocError, Global};

/// A line for each slot of the wallet that has a note at this moment, in seconds since 1970-01-01T00:00:00Z,
/// with the keys that the device holds. Slots are numbered from 0, in their order.
///
/// # Errors
///
/// [`NoMemory`] where it is out of memory.
pub fn notes<K: KeyDevice>(
    alloc: Global,
    wallet: &Wallet<'_>,
    moment: u64,
    device: &K,
) -> Result<String, NoMemory>
    ensures { IfOk result (λ text.
        string_bytes text ≡ notes_text (K.state device.now).held moment 0 (slots_in wallet.now)) }
{
    let mut text = String::new(alloc);
    for place in 0..wallet.len() {
        add_note(
            &mut text,
            place,
            note_of(wallet.slot(place), moment, device),
        )?;
    }
    Ok(text)
}

// Adds the line of the slot at this place, if there is a note on it.
fn add_note(text: &mut String, place: usize, note: Option<Note>) -> Result<(), AllocError>
    ensures { IfOk result (λ _. string_bytes text.new ≡ string_bytes text.old ++ slot_line place note) }
{
    match note {
        Some(Note::Unreadable(rule)) => write!(text, "note {place} unreadable {rule}\n"),
        Some(Note::Early) => write!(text, "note {place} early\n"),
        Some(Note::Late) => write!(text, "note {place} late\n"),
        Some(Note::NoKey) => write!(text, "note {place} no-key\n"),
        None => Ok(()),
    }
}
