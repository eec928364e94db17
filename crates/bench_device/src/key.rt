// A key of the bench.
ghost use Rattle.std.specs.Prelude.{◌≡◌, option_map};
ghost use Rattle.bench_device.specs.Bench.{signed_by, find_key};
ghost use Rattle.bench_device.specs.code.Keys.{meant, all_meant};

use sha2::{Digest, Sha256};

/// A key: its name, its secret of 32 bytes, and whether it is held.
#[derive(Drop)]
pub struct Key {
    pub name: String,
    pub secret: Vec<u8>,
    pub is_held: bool,
}

impl Key {
    /// The digest of the secret and then the message.
    pub fn sign(&self, message: &[u8]) -> [u8; 32]
        ensures { result ≡ signed_by (meant self.now) message.now }
    {
        let mut hasher = Sha256::new();
        hasher.update(self.secret.as_slice());
        hasher.update(message);
        hasher.finalize()
    }
}

/// The first key of this name.
pub fn find_key<'a>(keys: &'a [Key], name: &str) -> Option<&'a Key>
    ensures { option_map (λ key. meant key.now) result ≡ find_key (all_meant keys.now) name.now }
{
    for key in keys {
        if key.name.as_str() == name {
            return Some(key);
        }
    }
    None
}
