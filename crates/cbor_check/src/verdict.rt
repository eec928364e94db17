// What is said of a line.
ghost use Rattle.std.specs.Prelude.{◌≡◌, IfOk};
ghost use Rattle.cbor_core.specs.Rules.{broken_rule};
ghost use Rattle.cbor_check.specs.Verdicts.{verdict_by, verdict_of};

use base_forms::from_hex;
use cbor_core::read_one;
use std::alloc::{AllocError, Global};

/// What the program says of a line.
#[derive(Clone, Copy, Debug, PartialEq, Eq)]
pub enum Verdict {
    /// Its bytes are one CBOR item.
    Read,
    /// Its bytes break the rule of this number.
    Refused(u8),
    /// It is not hexadecimal.
    NoHexadecimal,
}

/// Out of memory.
#[derive(Clone, Copy, Debug, PartialEq, Eq)]
pub struct NoMemory;

impl From<AllocError> for NoMemory {
    fn from(_error: AllocError) -> NoMemory {
        NoMemory
    }
}

const LEVELS: u32 = 32;

/// The verdict on a line.
pub fn describe(alloc: Global, line: &str) -> Result<Verdict, NoMemory>
    ensures { IfOk result (λ verdict. verdict ≡ verdict_of line.now) }
{
    match from_hex(alloc, line) {
        Ok(bytes) => describe_bytes(alloc, &bytes),
        Err(base_forms::Error::Refused(_)) => Ok(Verdict::NoHexadecimal),
        Err(base_forms::Error::NoMemory) => Err(NoMemory),
    }
}

fn describe_bytes(alloc: Global, bytes: &[u8]) -> Result<Verdict, NoMemory>
    ensures { IfOk result (λ verdict. verdict ≡ verdict_by (broken_rule 32 bytes.now)) }
{
    match read_one(alloc, bytes, LEVELS) {
        Ok(_) => Ok(Verdict::Read),
        Err(cbor_core::Error::Refused(rule)) => Ok(Verdict::Refused(rule)),
        Err(cbor_core::Error::NoMemory) => Err(NoMemory),
    }
}
