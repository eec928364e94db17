// Issuing.
ghost use Rattle.std.specs.Prelude.{◌≡◌, ◌∷◌, true, map, string_bytes, IfOk};
ghost use Rattle.jws_envelope.specs.Draft.{message_of, drafted};
ghost use Rattle.runs.specs.Runs.{Runs};
ghost use Rattle.runs.specs.World.{World};
ghost use Rattle.sdjwt_issue.specs.Asked.{has_own_digests, AllReadAsAsked};
ghost use Rattle.sdjwt_issue.specs.Endings.{ending, IsIssued};
ghost use Rattle.sdjwt_issue.specs.Issued.{joined};
ghost use Rattle.sdjwt_issue.specs.Issuing.{issue_tree, sign_tree};
ghost use Rattle.sdjwt_issue.specs.Spec.{IsSdJwtSpec};
ghost use Rattle.sdjwt_issue.specs.code.Asking.{asked_of};
ghost use Rattle.sdjwt_issue.specs.code.Hiding.{IsHidden};

use crate::error::Error;
use crate::payload::payload_of;
use crate::spec::SdJwtSpec;
use jws_envelope::Draft;
use key_device::KeyDevice;
use sdjwt_hiding::{Hidden, IssuedDisclosure, NoMemory, has_own_digests, hide};
use std::alloc::{AllocError, Global};

/// Issues the SD-JWT that a spec asks for: the message with a signature of the device by the issuer's key,
/// and the disclosures in the order of `hide`, each followed by `~`. The device is asked once, exactly where
/// it holds the key and no two of the disclosures have one digest. The text reads as the credential that was
/// asked, and from then on the device judges its signature yes.
///
/// # Errors
///
/// `SharedDigest` before `KeyMissing`; `DeviceFault` exactly where the device failed; out of memory.
pub fn issue<K: KeyDevice>(alloc: Global, spec: &SdJwtSpec, device: &mut K) -> Result<String, Error>
    requires { IsSdJwtSpec (asked_of spec.now) }
    ensures runs { (w : World) → Runs (issue_tree (K.state device.old).held (asked_of spec.now))
        (record w { device = K.state device.old }) (record w { device = K.state device.new })
        (ending result) }
    ensures issued { IfOk result (λ text. IsIssued (asked_of spec.now) (K.state device.old).held
        (K.state device.new).judged (string_bytes text)) }
{
    let hidden = hide_claims(alloc, spec)?;
    if !has_own_digests(alloc, &hidden.disclosures)? {
        return Err(Error::SharedDigest);
    }
    sign(alloc, spec, &hidden, device)
}

// The payload of a spec and its disclosures.
fn hide_claims(alloc: Global, spec: &SdJwtSpec) -> Result<Hidden, NoMemory>
    requires { IsSdJwtSpec (asked_of spec.now) }
    ensures { IfOk result (λ h. IsHidden (asked_of spec.now) h) }
{
    let payload = payload_of(alloc, spec)?;
    hide(alloc, &payload, &spec.hide)
}

// The text of a payload and its disclosures, which have digests of their own.
fn sign<K: KeyDevice>(
    alloc: Global,
    spec: &SdJwtSpec,
    hidden: &Hidden,
    device: &mut K,
) -> Result<String, Error>
    requires asked { IsSdJwtSpec (asked_of spec.now) }
    requires hidden { IsHidden (asked_of spec.now) hidden.now }
    requires own_digests { has_own_digests (asked_of spec.now) ≡ true }
    ensures runs { (w : World)
        → Runs (sign_tree (asked_of spec.now) ((K.state device.old).held (asked_of spec.now).key_name))
        (record w { device = K.state device.old }) (record w { device = K.state device.new })
        (ending result) }
    ensures issued { IfOk result (λ text. IsIssued (asked_of spec.now) (K.state device.old).held
        (K.state device.new).judged (string_bytes text)) }
{
    let Some(alg) = device.holds(&spec.key_name) else {
        return Err(Error::KeyMissing);
    };
    let key = Some(spec.key.as_str());
    let draft = Draft::new(alloc, alg, "dc+sd-jwt", key, &hidden.value)?;
    let input = draft.signing_input().as_bytes();
    let signature = device.sign(alloc, &spec.key_name, input)?;
    Ok(signed_text(alloc, draft, &signature, &hidden.disclosures)?)
}

// The message of a draft with this signature, and the disclosures, each followed by `~`.
fn signed_text(
    alloc: Global,
    draft: Draft,
    signature: &[u8],
    disclosures: &[IssuedDisclosure],
) -> Result<String, jws_envelope::NoMemory>
    ensures written { IfOk result (λ text. string_bytes text ≡ joined
        (message_of (drafted draft) signature.now ∷ map (λ d. string_bytes d.text) disclosures.now)) }
    ensures read { IfOk result (λ _. AllReadAsAsked signature.now) }
{
    let message = draft.finish(alloc, signature)?;
    Ok(joined(message, disclosures)?)
}

// Texts, each followed by `~`: the message and those of the disclosures.
fn joined(message: String, disclosures: &[IssuedDisclosure]) -> Result<String, AllocError>
    ensures { IfOk result (λ text. string_bytes text
        ≡ joined (string_bytes message ∷ map (λ d. string_bytes d.text) disclosures.now)) }
{
    let mut text = message;
    text.push('~')?;
    for disclosure in disclosures {
        text.push_str(disclosure.text.as_str())?;
        text.push('~')?;
    }
    Ok(text)
}
