// The credentials of a wallet.
ghost use Rattle.std.specs.Prelude.{◌≡◌, ◌≤◌, length, IfOk};
ghost use Rattle.fit_table.specs.Slot.{slot_of, sd_slot, md_slot};

use crate::credential::Credential;
use crate::error::NoMemory;
use mdoc_view::MdCredential;
use sdjwt_view::SdCredential;
use std::alloc::Global;

/// What stands in a slot of a wallet.
#[derive(Drop)]
pub enum Slot<'t> {
    /// A credential that was read.
    Read(Credential<'t>),
    /// None was read, by the rule of this number.
    Unread(u8),
}

/// The credentials of a wallet, in slots: at most 64. It borrows the texts and bytes that they were read
/// from.
#[derive(Drop)]
pub struct Wallet<'t> {
    slots: Vec<Slot<'t>>,
    ghost few: { length slots.items ≤ 64 },
}

impl<'t> Wallet<'t> {
    ghost use Rattle.std.specs.Prelude.{◌<◌, ◌++◌, [], ◌∷◌, Some, Err, OnOk, OnErr, slice_get};
    ghost use Rattle.fit_table.specs.Wallet.{slots_in};

    /// A wallet with no slots.
    pub fn new(alloc: Global) -> Wallet<'t>
        ensures { slots_in result ≡ [] }
    {
        Wallet {
            slots: Vec::new(alloc),
        }
    }

    /// Adds a slot with the SD-JWT credential that the text is, or with the number of the first rule of
    /// [`SdCredential::read`] that it breaks: 2 where its issuer's JWS is refused.
    ///
    /// # Errors
    ///
    /// [`NoMemory`] where it is out of memory. The wallet is then as before.
    pub fn add_sd(&mut self, alloc: Global, text: &'t str) -> Result<(), NoMemory>
        requires { length (slots_in self.old) < 64 }
        ensures added { OnOk result (slots_in self.new ≡ slots_in self.old ++ sd_slot text.now ∷ []) }
        ensures unchanged { OnErr result (slots_in self.new ≡ slots_in self.old) }
    {
        let slot = read_sd(alloc, text)?;
        self.slots.push(slot)?;
        Ok(())
    }

    /// Adds a slot with the mobile document that the bytes are, or with the number of the first rule of
    /// [`MdCredential::read`] that they break: 1 where they are refused as CBOR, 3 where their issuer's
    /// signed message is refused.
    ///
    /// # Errors
    ///
    /// [`NoMemory`] where it is out of memory. The wallet is then as before.
    pub fn add_md(&mut self, alloc: Global, bytes: &'t [u8]) -> Result<(), NoMemory>
        requires { length (slots_in self.old) < 64 }
        ensures added { OnOk result (slots_in self.new ≡ slots_in self.old ++ md_slot bytes.now ∷ []) }
        ensures unchanged { OnErr result (slots_in self.new ≡ slots_in self.old) }
    {
        let slot = read_md(alloc, bytes)?;
        self.slots.push(slot)?;
        Ok(())
    }

    /// Adds a slot in which no credential was read, by the rule of this number.
    ///
    /// # Errors
    ///
    /// [`NoMemory`] where it is out of memory. The wallet is then as before.
    pub fn add_unread(&mut self, rule: u8) -> Result<(), NoMemory>
        requires { length (slots_in self.old) < 64 }
        ensures added { OnOk result (slots_in self.new ≡ slots_in self.old ++ Err rule ∷ []) }
        ensures unchanged { OnErr result (slots_in self.new ≡ slots_in self.old) }
    {
        self.slots.push(Slot::Unread(rule))?;
        Ok(())
    }

    /// How many slots there are: at most 64.
    pub fn len(&self) -> usize
        ensures count { result ≡ length (slots_in self.now) }
        ensures few { result ≤ 64 }
    {
        self.slots.len()
    }

    /// Slot `i`, in the order in which they were added.
    pub fn slot(&self, i: usize) -> &Slot<'t>
        requires { i < length (slots_in self.now) }
        ensures { slice_get (slots_in self.now) i ≡ Some (slot_of result.now) }
    {
        &self.slots[i]
    }
}

fn read_sd<'t>(alloc: Global, text: &'t str) -> Result<Slot<'t>, NoMemory>
    ensures { IfOk result (λ slot. slot_of slot ≡ sd_slot text.now) }
{
    match SdCredential::read(alloc, text) {
        Ok(credential) => Ok(Slot::Read(Credential::Sd(credential))),
        Err(sdjwt_view::Error::Refused(rule)) => Ok(Slot::Unread(rule)),
        Err(sdjwt_view::Error::Envelope(_)) => Ok(Slot::Unread(2)),
        Err(sdjwt_view::Error::NoMemory) => Err(NoMemory),
    }
}

fn read_md<'t>(alloc: Global, bytes: &'t [u8]) -> Result<Slot<'t>, NoMemory>
    ensures { IfOk result (λ slot. slot_of slot ≡ md_slot bytes.now) }
{
    match MdCredential::read(alloc, bytes) {
        Ok(credential) => Ok(Slot::Read(Credential::Md(credential))),
        Err(mdoc_view::Error::Refused(rule)) => Ok(Slot::Unread(rule)),
        Err(mdoc_view::Error::Cbor(_)) => Ok(Slot::Unread(1)),
        Err(mdoc_view::Error::Cose(_)) => Ok(Slot::Unread(3)),
        Err(mdoc_view::Error::NoMemory) => Err(NoMemory),
    }
}
