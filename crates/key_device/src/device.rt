// A device of keys.
ghost use Rattle.std.specs.Prelude.{◌≡◌, IsSome};
ghost use Rattle.claim_tree.specs.Credential.{named};
ghost use Rattle.key_device.specs.Device.{DeviceState, IsJudged, IsSigned, judged_as, signature_given};

use claim_tree::{Alg, KeyName, SignAlg};
use std::alloc::Global;

/// What a device says of a signature.
#[derive(Clone, Copy, Debug, PartialEq, Eq)]
pub enum Judged {
    /// It is a signature of the message by the key.
    Yes,
    /// It is none.
    No,
    /// The device failed.
    Failed,
}

/// Why nothing was signed.
#[derive(Clone, Copy, Debug, PartialEq, Eq)]
pub enum SignError {
    /// The device failed.
    Failed,
    /// Out of memory.
    NoMemory,
}

/// A device that holds keys by their names, signs with them, and judges signatures.
pub trait KeyDevice {
    /// The names that it holds, each with its algorithm; what it judges yes; its calls, where it tells them;
    /// and a count of faults.
    ghost state: { Self → DeviceState };

    /// The algorithm of the key of this name, where it is held. Takes no memory.
    fn holds(&self, name: &KeyName) -> Option<SignAlg>
        ensures { result ≡ (state self.now).held name.now };

    /// A signature of the message by the key of this name. It is judged yes from then on.
    ///
    /// # Errors
    ///
    /// `Failed` where the device failed, and this was counted; out of memory.
    fn sign(&mut self, alloc: Global, name: &KeyName, message: &[u8]) -> Result<Vec<u8>, SignError>
        requires { IsSome ((state self.old).held name.now) }
        ensures signed { IsSigned name.now message.now (state self.old) (state self.new)
            (signature_given result) };

    /// Whether it is a signature of the message by the key of this name, in this algorithm. `Failed` where
    /// the device failed, and this was counted. Takes no memory.
    fn judge(&mut self, name: &KeyName, alg: Alg<'_>, message: &[u8], signature: &[u8]) -> Judged
        ensures judged { IsJudged name.now (named alg.entry) message.now signature.now (state self.old)
            (state self.new) (judged_as result) };
}
