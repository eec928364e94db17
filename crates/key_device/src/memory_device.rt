// A device of keys in memory.
ghost use Rattle.std.specs.Prelude.{◌≡◌, ◌∷◌, [], ◌++◌, ◌≤◌, ℕ, List, Some, IfOk, OnOk, OnErr, map};
ghost use Rattle.std.specs.Prelude.{option_map, string_bytes, is_ok, true, if◌then◌else◌, IsSome};
ghost use Rattle.std.specs.List.{list_any};
ghost use Rattle.std.specs.Str.{bytes_eq};
ghost use Rattle.outside.specs.Faults.{next};
ghost use Rattle.claim_tree.specs.Credential.{named};
ghost use Rattle.key_device.specs.Calls.{Call, Tells};
ghost use Rattle.key_device.specs.Device.{IsJudged, IsSigned, judged_as, signature_given};
ghost use Rattle.key_device.specs.code.MemoryDevice.{meant, names_in, allowed_in, allows, record_in};
ghost use Rattle.key_device.specs.code.MemoryDevice.{calls_of, failing_in, given_of, faults_of, state_of};
ghost use Rattle.key_device.specs.code.MemoryDevice.{ChangesAllowed, ChangesFailing, with_one, numbered};
ghost use Rattle.key_device.specs.code.MemoryDevice.{fails, faults_after, Signs, verdict};

use super::allowed::{Allowed, is_allowed};
use super::asked::{Asked, with_call};
use super::device::{Judged, KeyDevice, SignError};
use super::error::NoMemory;
use claim_tree::{Alg, KeyName, SignAlg};
use std::alloc::Global;

/// A device in memory. It judges yes what it was told to allow and what it gave. A call fails exactly where
/// it was made a fault by [`MemoryDevice::fail_at`]. The calls are put on record, until there is no memory
/// for one; then there is no record.
#[derive(Drop)]
pub struct MemoryDevice {
    alloc: Global,
    names: Vec<String>,
    allowed: Vec<Allowed>,
    asked: Option<Vec<Asked>>,
    calls: u64,
    failing: Vec<u64>,
    given: u64,
    faults: u64,
}

impl MemoryDevice {
    /// Holds the keys of these names, each for the algorithm of the bench, and judges nothing yes.
    ///
    /// # Errors
    ///
    /// Out of memory.
    pub fn new(alloc: Global, names: &[KeyName]) -> Result<MemoryDevice, NoMemory>
        ensures names { IfOk result (λ device. names_in device ≡ names.now) }
        ensures allowed { IfOk result (λ device. allowed_in device ≡ []) }
        ensures asked { IfOk result (λ device. record_in device ≡ Some []) }
        ensures calls { IfOk result (λ device. calls_of device ≡ 0) }
        ensures failing { IfOk result (λ device. failing_in device ≡ []) }
        ensures given { IfOk result (λ device. given_of device ≡ 0) }
        ensures faults { IfOk result (λ device. faults_of device ≡ 0) }
    {
        let names = texts_of(alloc, names)?;
        Ok(MemoryDevice {
            alloc,
            names,
            allowed: Vec::new(alloc),
            asked: Some(Vec::new(alloc)),
            calls: 0,
            failing: Vec::new(alloc),
            given: 0,
            faults: 0,
        })
    }

    /// Judges this signature of this message yes from now on, under every algorithm.
    ///
    /// # Errors
    ///
    /// Out of memory. Then the device is as before.
    pub fn allow(
        &mut self,
        name: &KeyName,
        message: &[u8],
        signature: &[u8],
    ) -> Result<(), NoMemory>
        ensures allowed { OnOk result ((n m s : List ℕ) → allows self.new n m s
            ≡ with_one self.old name.now message.now signature.now n m s) }
        ensures unchanged { OnErr result (allowed_in self.new ≡ allowed_in self.old) }
        ensures rest { ChangesAllowed self.old self.new }
    {
        let allowed = Allowed::new(self.alloc, name.text(), message, signature)?;
        self.allowed.push(allowed)?;
        Ok(())
    }

    /// Makes the call of this number a fault. Calls of [`KeyDevice::sign`] and [`KeyDevice::judge`] are
    /// counted together, from 0 since the device was made.
    ///
    /// # Errors
    ///
    /// Out of memory. Then the device is as before.
    pub fn fail_at(&mut self, call: u64) -> Result<(), NoMemory>
        ensures failing { OnOk result (failing_in self.new ≡ failing_in self.old ++ call ∷ []) }
        ensures unchanged { OnErr result (failing_in self.new ≡ failing_in self.old) }
        ensures rest { ChangesFailing self.old self.new }
    {
        self.failing.push(call)?;
        Ok(())
    }

    /// The calls that were made, in their order, where they are on record. Takes no memory.
    pub fn asked(&self) -> Option<&[Asked]>
        ensures { option_map (λ asked. map meant asked.now) result ≡ record_in self.now }
    {
        match &self.asked {
            Some(asked) => Some(asked.as_slice()),
            None => None,
        }
    }

    // Counts a call, and says whether it fails.
    fn fails(&mut self) -> bool
        ensures fails { result ≡ fails self.old }
        ensures calls { calls_of self.new ≡ next (calls_of self.old) }
        ensures faults { faults_of self.new ≡ faults_after self.old }
        ensures later { faults_of self.old ≤ faults_of self.new }
        ensures rest { self.new ≡ record self.old { calls = self.new.calls; faults = self.new.faults } }
    {
        let call = self.calls;
        self.calls = self.calls.saturating_add(1);
        if self.failing.contains(&call) {
            self.faults = self.faults.saturating_add(1);
            return true;
        }
        false
    }

    // Puts a call on record.
    fn tell(&mut self, asked: Result<Asked, NoMemory>)
        ensures told { (call : Call) → IfOk asked (λ one. meant one ≡ call)
            → Tells (record_in self.old) (record_in self.new) call }
        ensures rest { self.new ≡ record self.old { asked = self.new.asked } }
    {
        self.asked = match self.asked.take() {
            Some(calls) => with_call(calls, asked),
            None => None,
        };
    }

    // The next signature, which is judged yes from now on.
    fn give(&mut self, alloc: Global, name: &KeyName, message: &[u8]) -> Result<Vec<u8>, NoMemory>
        ensures numbered { IfOk result (λ signature. signature.items ≡ numbered (given_of self.old)) }
        ensures allowed { IfOk result (λ signature. (n m s : List ℕ) → allows self.new n m s
            ≡ with_one self.old name.now message.now signature.items n m s) }
        ensures genuine { IfOk result (λ signature.
            allows self.new name.now message.now signature.items ≡ true) }
        ensures unchanged { OnErr result (allowed_in self.new ≡ allowed_in self.old) }
        ensures given { given_of self.new
            ≡ (if is_ok result then next (given_of self.old) else given_of self.old) }
        ensures rest { self.new ≡ record self.old { allowed = self.new.allowed; given = self.new.given } }
    {
        let signature = Vec::from_slice(alloc, &numbered(self.given))?;
        self.allow(name, message, &signature)?;
        self.given = self.given.saturating_add(1);
        Ok(signature)
    }
}

// The texts of names.
fn texts_of(alloc: Global, names: &[KeyName]) -> Result<Vec<String>, NoMemory>
    ensures { IfOk result (λ texts. map string_bytes texts.items ≡ names.now) }
{
    let mut texts = Vec::new(alloc);
    for name in names {
        texts.push(String::from_str(alloc, name.text())?)?;
    }
    Ok(texts)
}

// Whether a text is among some.
fn is_among(texts: &[String], text: &str) -> bool
    ensures { result ≡ list_any (λ one. bytes_eq (string_bytes one) text.now) texts.now }
{
    texts.iter().any(|one| one.as_str() == text)
}

// The signature with this number: 24 zeros, and the number with its high byte first.
fn numbered(number: u64) -> [u8; 32]
    ensures { result ≡ numbered number }
{
    let mut bytes = [0; 32];
    bytes[24..].copy_from_slice(&number.to_be_bytes());
    bytes
}

impl KeyDevice for MemoryDevice {
    ghost state = { state_of };

    fn holds(&self, name: &KeyName) -> Option<SignAlg> {
        if is_among(&self.names, name.text()) {
            Some(SignAlg::Bench256)
        } else {
            None
        }
    }

    fn sign(&mut self, alloc: Global, name: &KeyName, message: &[u8]) -> Result<Vec<u8>, SignError>
        requires { IsSome ((state_of self.old).held name.now) }
        ensures signed { IsSigned name.now message.now (state_of self.old) (state_of self.new)
            (signature_given result) }

        // The call fails exactly where it was made a fault, and else gives the next signature.
        ensures exact { Signs self.old self.new name.now message.now (signature_given result) }
        ensures calls { calls_of self.new ≡ next (calls_of self.old) }
        ensures faults { faults_of self.new ≡ faults_after self.old }
        ensures failing { failing_in self.new ≡ failing_in self.old }
    {
        let own = self.alloc;
        if self.fails() {
            self.tell(Asked::signing(own, name.text(), message, None));
            return Err(SignError::Failed);
        }
        match self.give(alloc, name, message) {
            Ok(signature) => {
                self.tell(Asked::signing(own, name.text(), message, Some(signature.as_slice())));
                Ok(signature)
            }
            Err(NoMemory) => {
                self.tell(Asked::signing(own, name.text(), message, None));
                Err(SignError::NoMemory)
            }
        }
    }

    fn judge(&mut self, name: &KeyName, alg: Alg<'_>, message: &[u8], signature: &[u8]) -> Judged
        ensures judged { IsJudged name.now (named alg.entry) message.now signature.now (state_of self.old)
            (state_of self.new) (judged_as result) }

        // The call fails exactly where it was made a fault.
        ensures exact { judged_as result ≡ verdict self.old name.now message.now signature.now }
        ensures calls { calls_of self.new ≡ next (calls_of self.old) }
        ensures faults { faults_of self.new ≡ faults_after self.old }
        ensures failing { failing_in self.new ≡ failing_in self.old }
        ensures given { given_of self.new ≡ given_of self.old }
    {
        let own = self.alloc;
        let fails = self.fails();
        self.tell(Asked::judging(own, name.text(), alg, message, signature));
        if fails {
            return Judged::Failed;
        }
        if is_allowed(&self.allowed, name.text(), message, signature) {
            Judged::Yes
        } else {
            Judged::No
        }
    }
}
