// The fits of a query.
ghost use Rattle.std.specs.Prelude.{◌↔◌, ◌<◌, ◌+◌, length, IfOk};
ghost use Rattle.std.specs.List.{Contains};
ghost use Rattle.dcql_answers.specs.declared.fits.Fit.{Fit};
ghost use Rattle.fit_table.specs.Wallet.{slots_in};
ghost use Rattle.fit_table.specs.Fit.{IsFit};
ghost use Rattle.fit_table.specs.code.Found.{IsFound};

use crate::error::NoMemory;
use crate::wallet::{Slot, Wallet};
use dcql_query::{Fits, Query};
use key_device::KeyDevice;
use std::alloc::Global;

/// The fits of a query: which credential of the wallet meets which credential query under which claim set,
/// and is usable for it at this moment, in seconds since 1970-01-01T00:00:00Z, with the keys that the device
/// holds. A slot in which no credential was read has none.
///
/// # Errors
///
/// [`NoMemory`] where it is out of memory.
pub fn fill<K: KeyDevice>(
    alloc: Global,
    query: &Query,
    wallet: &Wallet<'_>,
    moment: u64,
    device: &K,
) -> Result<Fits, NoMemory>
    ensures { IfOk result (λ fits. (fit : Fit) → (Contains fits fit
        ↔ IsFit query.now (slots_in wallet.now) (K.state device.now).held moment fit)) }
{
    let mut found = Vec::new(alloc);
    for q in 0..query.len() as u16 {
        add_fits_of_query(&mut found, query, q, wallet, moment, device)?;
    }
    Ok(Fits::from_triples(alloc, &found)?)
}

// Adds the fits of one credential query.
fn add_fits_of_query<K: KeyDevice>(
    found: &mut Vec<(u16, u16, u16)>,
    query: &Query,
    q: u16,
    wallet: &Wallet<'_>,
    moment: u64,
    device: &K,
) -> Result<(), NoMemory>
    requires { q < length query.now.credentials }
    ensures { IsFound query.now (slots_in wallet.now) (K.state device.now).held moment q 0 0 found.old.items
        → IfOk result (λ _. IsFound query.now (slots_in wallet.now) (K.state device.now).held moment (q + 1)
        0 0 found.new.items) }
{
    for c in 0..wallet.len() as u16 {
        add_fits(found, query, q, wallet, c, moment, device)?;
    }
    Ok(())
}

// Adds the fits of one credential query and the credential of one slot.
fn add_fits<K: KeyDevice>(
    found: &mut Vec<(u16, u16, u16)>,
    query: &Query,
    q: u16,
    wallet: &Wallet<'_>,
    c: u16,
    moment: u64,
    device: &K,
) -> Result<(), NoMemory>
    requires query { q < length query.now.credentials }
    requires slot { c < length (slots_in wallet.now) }
    ensures { IsFound query.now (slots_in wallet.now) (K.state device.now).held moment q c 0 found.old.items
        → IfOk result (λ _. IsFound query.now (slots_in wallet.now) (K.state device.now).held moment q
        (c + 1) 0 found.new.items) }
{
    let Slot::Read(credential) = wallet.slot(c as usize) else {
        return Ok(());
    };
    let asked = query.at(q as usize);
    if credential.is_usable(asked, moment, device) {
        for set in 0..asked.set_count() {
            if credential.meets(asked, set) {
                found.push((q, c, set as u16))?;
            }
        }
    }
    Ok(())
}
