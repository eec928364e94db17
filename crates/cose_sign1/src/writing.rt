// Signed messages as they are written.
ghost use Rattle.std.specs.Prelude.{◌≡◌, ◌++◌, IfOk, OnOk, option_map};
ghost use Rattle.cose_sign1.specs.ReadBack.{ReadsAs};
ghost use Rattle.cose_sign1.specs.Sign1.{signed_bytes};
ghost use Rattle.cose_sign1.specs.Writing.{protected_bytes, unprotected_bytes, payload_bytes, sign1_bytes};

use crate::error::NoMemory;
use cbor_core::Writer;
use claim_tree::SignAlg;
use std::alloc::Global;

/// The bytes that a signature is over: the written `Signature1` list of a message whose protected headers
/// name this algorithm.
pub fn draft_message(alloc: Global, alg: SignAlg, payload: &[u8]) -> Result<Vec<u8>, NoMemory>
    ensures { IfOk result (λ v. v.items ≡ signed_bytes (protected_bytes alg) payload.now) }
{
    let protected = protected(alloc, alg)?;
    signed(alloc, &protected, payload)
}

/// The written message, under no tag. The algorithm stands in the protected headers, and the identifier of
/// the key, where one is given, in the unprotected ones. Without a payload null stands in its place.
pub fn write_sign1(
    alloc: Global,
    alg: SignAlg,
    kid: Option<&[u8]>,
    payload: Option<&[u8]>,
    signature: &[u8],
) -> Result<Vec<u8>, NoMemory>
    ensures bytes { IfOk result (λ v. v.items ≡ sign1_bytes alg (option_map (λ b. b.now) kid.entry)
        (option_map (λ b. b.now) payload.entry) signature.now) }
    ensures read { IfOk result (λ v. ReadsAs v.items alg (option_map (λ b. b.now) kid.entry)
        (option_map (λ b. b.now) payload.entry) signature.now) }
{
    let protected = protected(alloc, alg)?;
    let mut writer = Writer::new(alloc);
    writer.list(4)?;
    writer.bytes(&protected)?;
    put_unprotected(&mut writer, kid)?;
    put_payload(&mut writer, payload)?;
    writer.bytes(signature)?;
    Ok(writer.finish())
}

/// The written `Signature1` list of some protected headers and a payload (RFC 9052, section 4.4).
pub fn signed(alloc: Global, protected: &[u8], payload: &[u8]) -> Result<Vec<u8>, NoMemory>
    ensures { IfOk result (λ v. v.items ≡ signed_bytes protected.now payload.now) }
{
    let mut writer = Writer::new(alloc);
    writer.list(4)?;
    writer.text("Signature1")?;
    writer.bytes(protected)?;
    writer.bytes(&[])?;
    writer.bytes(payload)?;
    Ok(writer.finish())
}

// The map of label 1. Its head is that of a map of one pair.
fn protected(alloc: Global, alg: SignAlg) -> Result<Vec<u8>, NoMemory>
    ensures { IfOk result (λ v. v.items ≡ protected_bytes alg) }
{
    let mut writer = Writer::new(alloc);
    writer.raw(&[161])?;
    writer.whole(1)?;
    writer.whole(i128::from(alg.cose()))?;
    Ok(writer.finish())
}

fn put_unprotected(writer: &mut Writer, kid: Option<&[u8]>) -> Result<(), NoMemory>
    ensures { OnOk result (writer.new ≡ writer.old
        ++ unprotected_bytes (option_map (λ b. b.now) kid.entry)) }
{
    match kid {
        Some(kid) => {
            writer.raw(&[161])?;
            writer.whole(4)?;
            writer.bytes(kid)?;
        }
        None => writer.raw(&[160])?,
    }
    Ok(())
}

fn put_payload(writer: &mut Writer, payload: Option<&[u8]>) -> Result<(), NoMemory>
    ensures { OnOk result (writer.new ≡ writer.old
        ++ payload_bytes (option_map (λ b. b.now) payload.entry)) }
{
    match payload {
        Some(payload) => writer.bytes(payload)?,
        None => writer.null()?,
    }
    Ok(())
}
