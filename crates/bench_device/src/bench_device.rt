// The device of the bench.
ghost use Rattle.std.specs.Prelude.{◌≡◌, Ok, IfOk, IfErr, IsSome, IsSomeAnd};
ghost use Rattle.outside.specs.Calls.{Given};
ghost use Rattle.outside.specs.Store.{File, IsRead};
ghost use Rattle.claim_tree.specs.Credential.{named};
ghost use Rattle.key_device.specs.Device.{IsJudged, IsSigned, judged_as, signature_given};
ghost use Rattle.bench_device.specs.Bench.{find_key, held_by, signed_by, is_bench, verdict, bench_state};
ghost use Rattle.bench_device.specs.KeysFile.{keys_in, keys_in_file, keys_name, most_bytes};
ghost use Rattle.bench_device.specs.Refusals.{IsBadLine, IsOutOfMemory};
ghost use Rattle.bench_device.specs.code.Keys.{keys_of, ReadsFile, Loads};

use super::error::{Error, KeysError};
use super::key::{Key, find_key};
use super::keys_file::read_keys;
use claim_tree::{Alg, KeyName, SignAlg};
use key_device::{Judged, KeyDevice, SignError};
use outside::{Store, StoreError};
use std::alloc::Global;

const MOST_BYTES: usize = 1_048_576;

/// A device whose keys stand in a file. It never fails, and tells no calls. Its algorithm is in no standard:
/// a signature is the SHA-256 digest of the key's secret and then the message.
#[derive(Drop)]
pub struct BenchDevice {
    keys: Vec<Key>,
}

impl BenchDevice {
    /// The keys of a text of lines `hold SECRET NAME` or `know SECRET NAME`, at most 256, each name once. A
    /// key that is known is judged and not held.
    ///
    /// # Errors
    ///
    /// The number of the first line that is not of this form; out of memory.
    pub fn from_text(alloc: Global, text: &str) -> Result<BenchDevice, Error>
        ensures keys { IfOk result (λ device. keys_in text.now ≡ Ok (keys_of device)) }
        ensures refused { IfErr result (IsBadLine (keys_in text.now)) }
    {
        let keys = read_keys(alloc, text)?;
        Ok(BenchDevice { keys })
    }

    /// The keys of the file `device.keys`, of at most 1,048,576 bytes.
    ///
    /// # Errors
    ///
    /// A fault of the store; a file that is longer; the number of the first line that is not of the form; out
    /// of memory.
    pub fn from_store<S: Store>(alloc: Global, store: &mut S) -> Result<BenchDevice, KeysError>
        ensures { (given : Given File)
            × IsRead keys_name most_bytes (S.state store.old) (S.state store.new) given
            × Loads given result }
    {
        match store.read(alloc, "device.keys", MOST_BYTES) {
            Ok(bytes) => from_file(alloc, &bytes),
            Err(StoreError::Failed) => Err(KeysError::ReadFault),
            Err(StoreError::TooLong) => Err(KeysError::TooLong),
            Err(StoreError::NoMemory) => Err(KeysError::NoMemory),
        }
    }
}

// The keys of a file of these bytes.
fn from_file(alloc: Global, bytes: &[u8]) -> Result<BenchDevice, KeysError>
    ensures { ReadsFile (keys_in_file bytes.now) result }
{
    let Ok(text) = str::from_utf8(bytes) else {
        return Err(KeysError::Line(1));
    };
    match BenchDevice::from_text(alloc, text) {
        Ok(device) => Ok(device),
        Err(Error::Line(number)) => Err(KeysError::Line(number)),
        Err(Error::NoMemory) => Err(KeysError::NoMemory),
    }
}

fn is_bench(alg: Alg<'_>) -> bool
    ensures { result ≡ is_bench (named alg.entry) }
{
    match alg {
        Alg::Jose(text) => text == "BENCH256",
        Alg::Cose(number) => number == -70256,
    }
}

impl KeyDevice for BenchDevice {
    ghost state = { λ device. bench_state (keys_of device) };

    fn holds(&self, name: &KeyName) -> Option<SignAlg> {
        match find_key(&self.keys, name.text()) {
            Some(key) if key.is_held => Some(SignAlg::Bench256),
            _ => None,
        }
    }

    fn sign(&mut self, alloc: Global, name: &KeyName, message: &[u8]) -> Result<Vec<u8>, SignError>
        requires { IsSome (held_by (keys_of self.old) name.now) }
        ensures signed { IsSigned name.now message.now (bench_state (keys_of self.old))
            (bench_state (keys_of self.new)) (signature_given result) }

        // It never fails, and its keys stay.
        ensures signature { IfOk result (λ signature. IsSomeAnd (find_key (keys_of self.old) name.now) (λ key.
            signature.items ≡ signed_by key message.now)) }
        ensures answers { IfErr result IsOutOfMemory }
        ensures keys { keys_of self.new ≡ keys_of self.old }
    {
        match find_key(&self.keys, name.text()) {
            Some(key) => match Vec::from_slice(alloc, &key.sign(message)) {
                Ok(signature) => Ok(signature),
                Err(_) => Err(SignError::NoMemory),
            },
            None => unreachable!(),
        }
    }

    fn judge(&mut self, name: &KeyName, alg: Alg<'_>, message: &[u8], signature: &[u8]) -> Judged
        ensures judged { IsJudged name.now (named alg.entry) message.now signature.now
            (bench_state (keys_of self.old)) (bench_state (keys_of self.new)) (judged_as result) }

        // It never fails, and its keys stay.
        ensures verdict { result
            ≡ verdict (keys_of self.old) name.now (named alg.entry) message.now signature.now }
        ensures keys { keys_of self.new ≡ keys_of self.old }
    {
        if !is_bench(alg) {
            return Judged::No;
        }
        match find_key(&self.keys, name.text()) {
            Some(key) if key.sign(message).as_slice() == signature => Judged::Yes,
            _ => Judged::No,
        }
    }
}
