// Signatures that a device in memory judges yes.
ghost use Rattle.std.specs.Prelude.{◌≡◌, IfOk, string_bytes};
ghost use Rattle.key_device.specs.code.MemoryDevice.{is_allowed};

use super::error::NoMemory;
use std::alloc::Global;

/// A signature of a message that is judged yes under a name.
#[derive(Drop)]
pub struct Allowed {
    pub name: String,
    pub message: Vec<u8>,
    pub signature: Vec<u8>,
}

impl Allowed {
    pub fn new(
        alloc: Global,
        name: &str,
        message: &[u8],
        signature: &[u8],
    ) -> Result<Allowed, NoMemory>
        ensures name { IfOk result (λ allowed. string_bytes allowed.name ≡ name.now) }
        ensures message { IfOk result (λ allowed. allowed.message.items ≡ message.now) }
        ensures signature { IfOk result (λ allowed. allowed.signature.items ≡ signature.now) }
    {
        Ok(Allowed {
            name: String::from_str(alloc, name)?,
            message: Vec::from_slice(alloc, message)?,
            signature: Vec::from_slice(alloc, signature)?,
        })
    }
}

pub fn is_allowed(allowed: &[Allowed], name: &str, message: &[u8], signature: &[u8]) -> bool
    ensures { result ≡ is_allowed allowed.now name.now message.now signature.now }
{
    for one in allowed {
        if one.name.as_str() == name
            && one.message.as_slice() == message
            && one.signature.as_slice() == signature
        {
            return true;
        }
    }
    false
}
