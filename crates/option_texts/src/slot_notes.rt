// Why a credential of a wallet is not offered.
ghost use Rattle.std.specs.Prelude.{◌≡◌};
ghost use Rattle.fit_table.specs.Credential.{meaning};
ghost use Rattle.fit_table.specs.Slot.{slot_of};
ghost use Rattle.option_texts.specs.Notes.{note_of, credential_note, date_note};

use claim_tree::Facts;
use fit_table::{Credential, Slot};
use key_device::KeyDevice;

/// What is to be said of a slot of a wallet.
#[derive(Clone, Copy, PartialEq, Eq, Debug, Drop)]
pub enum Note {
    /// No credential was read in it, by the rule of this number.
    Unreadable(u8),
    /// The credential is not valid yet.
    Early,
    /// The credential has expired.
    Late,
    /// The credential is bound to no key, or to one that the device does not hold.
    NoKey,
}

/// The first note that applies to the slot at this moment, in seconds since 1970-01-01T00:00:00Z, with the
/// keys that the device holds. A missing key is noted whatever a query asks for. Takes no memory.
pub fn note_of<K: KeyDevice>(slot: &Slot<'_>, moment: u64, device: &K) -> Option<Note>
    ensures { result ≡ note_of (K.state device.now).held moment (slot_of slot.now) }
{
    match slot {
        Slot::Read(credential) => credential_note(credential, moment, device),
        Slot::Unread(rule) => Some(Note::Unreadable(*rule)),
    }
}

fn credential_note<K: KeyDevice>(
    credential: &Credential<'_>,
    moment: u64,
    device: &K,
) -> Option<Note>
    ensures { result ≡ credential_note (K.state device.now).held moment (meaning credential.now) }
{
    match date_note(credential.facts(), moment) {
        Some(note) => Some(note),
        None if credential.is_held(device) => None,
        None => Some(Note::NoKey),
    }
}

fn date_note(facts: Facts<'_>, moment: u64) -> Option<Note>
    ensures { result ≡ date_note facts.entry.first facts.entry.past moment }
{
    if moment < facts.first {
        return Some(Note::Early);
    }
    match facts.past {
        Some(past) if past <= moment => Some(Note::Late),
        _ => None,
    }
}
