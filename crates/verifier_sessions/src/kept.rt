// The text that a kept session has.
ghost use Rattle.std.specs.Prelude.{◌≡◌, IfOk};

use crate::error::NoMemory;
use std::alloc::Global;
use std::marker::Model;

/// The id or the nonce that a session which is kept has. Contracts see its bytes, in UTF-8.
#[derive(Drop)]
pub struct Kept {
    text: String,
}

impl Model for Kept {
    ghost use Rattle.std.specs.Prelude.{ℕ, List, string_bytes};

    ghost Value = { List ℕ };

    ghost view = { λ k. string_bytes k.text };
}

impl Kept {
    /// A copy of this text.
    pub(crate) fn new(alloc: Global, text: &str) -> Result<Kept, NoMemory>
        ensures { IfOk result (λ k. k ≡ text.now) }
    {
        let text = String::from_str(alloc, text)?;
        Ok(Kept { text })
    }

    /// The text.
    pub fn as_str(&self) -> &str
        ensures { result.now ≡ self.now }
    {
        self.text.as_str()
    }
}
