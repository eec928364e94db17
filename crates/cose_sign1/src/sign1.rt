// A signed message.
ghost use Rattle.std.specs.Prelude.{◌≡◌, true, None, Some, IfOk, IfErr, option_map};
ghost use Rattle.cbor_core.specs.Seen.{span_of};
ghost use Rattle.cose_sign1.specs.code.Parts.{said, headers_of};
ghost use Rattle.cose_sign1.specs.Refusal.{IsRefusal};
ghost use Rattle.cose_sign1.specs.Sign1.{sign1_rule, message_in, signed_bytes, algorithm_in, algorithm_of};
ghost use Rattle.cose_sign1.specs.Sign1.{has_critical, protected_of, protected_rule, is_where};

use crate::error::{Error, NoMemory};
use crate::headers::find_label;
use crate::parts::Parts;
use crate::payload::Payload;
use crate::writing::signed;
use cbor_core::{Item, Kind, read_one};
use claim_tree::Alg;
use std::alloc::Global;

const PROTECTED_LEVELS: u32 = 32;

const ALGORITHM: i128 = 1;

const CRITICAL: i128 = 2;

/// A COSE_Sign1 message (RFC 9052). It borrows the bytes that it was read from.
#[derive(Clone, Copy)]
pub struct Sign1<'a> {
    pub(crate) parts: Parts<'a>,
    pub(crate) protected: Option<Item<'a>>,
    algorithm: i128,
    ghost headers: { headers_of protected ≡ protected_of parts.protected.now },
    ghost named: { algorithm_of (said parts) ≡ Some algorithm },
}

impl<'a> Sign1<'a> {
    ghost use Rattle.std.specs.Option.{is_some};
    ghost use Rattle.claim_tree.specs.Credential.{named};
    ghost use Rattle.cose_sign1.specs.code.Message.{message};
    ghost use Rattle.cose_sign1.specs.Seal.{seal_algorithm};

    /// Reads a signed message. The signature is not verified.
    ///
    /// # Errors
    ///
    /// `Refused` with the least rule that the item breaks: 1 it is a list of four, under tag 18 or none:
    /// protected bytes, unprotected map, payload bytes or null, signature bytes; 2 the protected bytes are
    /// empty or one map of at most 32 levels; 3 the protected map has an algorithm (label 1), an integer; 4
    /// no map has critical headers (label 2), since no extension is understood; 5 the payload is there where
    /// it is expected inside, and null where it is detached.
    #[tactic(auto, unfolding(base_forms::specs::Rules::rule, crate::specs::Sign1::sign1_rule))]
    pub fn read(alloc: Global, item: Item<'a>, expected: Payload) -> Result<Sign1<'a>, Error>
        ensures sound { IfOk result (λ s. sign1_rule expected (span_of item.entry) ≡ None) }
        ensures read { IfOk result (λ s. message_in (span_of item.entry) ≡ Some (message s)) }
        ensures refused { IfErr result (λ e. IsRefusal (sign1_rule expected (span_of item.entry)) e) }
    {
        let Some(parts) = Parts::of(item) else {
            return Err(Error::Refused(1));
        };
        let protected = protected_map(alloc, parts.protected)?;
        let Some(algorithm) = algorithm_in(protected) else {
            return Err(Error::Refused(3));
        };
        if has_critical(protected) || has_critical(Some(parts.unprotected)) {
            return Err(Error::Refused(4));
        }
        if !is_where(expected, parts.payload) {
            return Err(Error::Refused(5));
        }
        Ok(Sign1 {
            parts,
            protected,
            algorithm,
        })
    }

    /// The payload, if it is inside.
    pub fn payload(&self) -> Option<&'a [u8]>
        ensures { option_map (λ b. b.now) result ≡ (message self.now).payload }
    {
        self.parts.payload
    }

    /// The signature's bytes, as they stand in the message.
    pub fn signature(&self) -> &'a [u8]
        ensures { result.now ≡ (message self.now).signature }
    {
        self.parts.signature
    }

    /// The algorithm that the protected headers name.
    pub fn alg(&self) -> Alg<'a>
        ensures is_there { is_some (algorithm_of (message self.now)) ≡ true }
        ensures named { named result ≡ seal_algorithm (message self.now) }
    {
        Alg::Cose(self.algorithm)
    }

    /// The bytes that the signature is over with this payload: the written `Signature1` list.
    pub fn to_be_signed(&self, alloc: Global, payload: &[u8]) -> Result<Vec<u8>, NoMemory>
        ensures { IfOk result (λ v. v.items ≡ signed_bytes (message self.now).protected payload.now) }
    {
        signed(alloc, self.parts.protected, payload)
    }
}

// The map that the protected bytes are. There is none where there are no bytes.
#[tactic(auto, unfolding(base_forms::specs::Rules::rule, crate::specs::Sign1::protected_rule))]
fn protected_map<'a>(alloc: Global, bytes: &'a [u8]) -> Result<Option<Item<'a>>, Error>
    ensures sound { IfOk result (λ _. protected_rule bytes.now ≡ None) }
    ensures read { IfOk result (λ headers. headers_of headers ≡ protected_of bytes.now) }
    ensures refused { IfErr result (λ e. IsRefusal (protected_rule bytes.now) e) }
{
    if bytes.is_empty() {
        return Ok(None);
    }
    match read_one(alloc, bytes, PROTECTED_LEVELS) {
        Ok(item) => {
            if matches!(item.kind(), Kind::Map) {
                Ok(Some(item))
            } else {
                Err(Error::Refused(2))
            }
        }
        Err(cbor_core::Error::Refused(_)) => Err(Error::Refused(2)),
        Err(cbor_core::Error::NoMemory) => Err(Error::NoMemory),
    }
}

fn algorithm_in(headers: Option<Item>) -> Option<i128>
    ensures { result ≡ algorithm_in (headers_of headers.entry) }
{
    find_label(headers?, ALGORITHM)?.whole()
}

fn has_critical(headers: Option<Item>) -> bool
    ensures { result ≡ has_critical (headers_of headers.entry) }
{
    match headers {
        Some(headers) => find_label(headers, CRITICAL).is_some(),
        None => false,
    }
}

fn is_where(expected: Payload, payload: Option<&[u8]>) -> bool
    ensures { result ≡ is_where expected (option_map (λ b. b.now) payload.entry) }
{
    match expected {
        Payload::Inside => payload.is_some(),
        Payload::Detached => payload.is_none(),
    }
}
