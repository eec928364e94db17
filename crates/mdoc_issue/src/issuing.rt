// Issuing.
ghost use Rattle.std.specs.Prelude.{◌≡◌, ◌≤◌, IfOk};
ghost use Rattle.runs.specs.Runs.{Runs};
ghost use Rattle.runs.specs.World.{World};
ghost use Rattle.mdoc_items.specs.IssuerSignedItems.{most_items};
ghost use Rattle.mdoc_issue.specs.Endings.{IsIssued};
ghost use Rattle.mdoc_issue.specs.Issued.{document_for};
ghost use Rattle.mdoc_issue.specs.Issuing.{issue_tree, ending};
ghost use Rattle.mdoc_issue.specs.Spec.{IsMdocSpec};
ghost use Rattle.mdoc_issue.specs.code.Asking.{asked_of};
ghost use Rattle.mdoc_issue.specs.code.Unsigned.{IsMadeOf};
ghost use Rattle.mdoc_object.specs.Namespaces.{element_count};

use crate::error::Error;
use crate::laws::issued_is_asked;
use crate::spec::MdocSpec;
use claim_tree::SignAlg;
use cose_sign1::{NoMemory, draft_message, write_sign1};
use key_device::KeyDevice;
use mdoc_object::{ObjectParts, issuer_signed, namespaces_bytes, payload, write_namespaces};
use std::alloc::Global;

/// Issues the mobile document that a spec asks for, an `IssuerSigned`: its items, and their digests in a
/// mobile security object with a signature of the device by the issuer's key. The device is asked once,
/// exactly where it holds that key. What is issued reads as the credential that was asked.
///
/// # Errors
///
/// `KeyMissing` exactly where the device does not hold the issuer's key; `DeviceFault` exactly where it
/// failed; out of memory.
pub fn issue<K: KeyDevice>(alloc: Global, spec: &MdocSpec, device: &mut K) -> Result<Vec<u8>, Error>
    requires { IsMdocSpec (asked_of spec.now) }
    ensures runs { (w : World) → Runs (issue_tree (K.state device.old).held (asked_of spec.now))
        (record w { device = K.state device.old }) (record w { device = K.state device.new })
        (ending result) }
    ensures issued { IfOk result (λ bytes. IsIssued (asked_of spec.now) (K.state device.old).held
        (K.state device.new).judged bytes.items) }
{
    let Some(alg) = device.holds(&spec.key_name) else {
        return Err(Error::KeyMissing);
    };
    let unsigned = write_unsigned(alloc, spec)?;
    let message = draft_message(alloc, alg, &unsigned.payload)?;
    let signature = device.sign(alloc, &spec.key_name, &message)?;
    issued_is_asked();
    Ok(document(alloc, spec, alg, &unsigned, &signature)?)
}

/// What is made of a spec before it is signed.
#[derive(Drop)]
struct Unsigned {
    /// `nameSpaces`.
    namespaces: Vec<u8>,
    /// The mobile security object.
    payload: Vec<u8>,
}

fn write_unsigned(alloc: Global, spec: &MdocSpec) -> Result<Unsigned, NoMemory>
    requires { element_count (asked_of spec.now).namespaces ≤ most_items }
    ensures { IfOk result (λ u. IsMadeOf (asked_of spec.now) u) }
{
    let written = write_namespaces(alloc, &spec.namespaces)?;
    let parts = ObjectParts {
        kind: spec.kind.as_str(),
        from: spec.from,
        until: spec.until,
        key: &spec.holder,
    };
    let payload = payload(alloc, &parts, &written)?;
    let namespaces = namespaces_bytes(alloc, &written)?;
    Ok(Unsigned {
        namespaces,
        payload,
    })
}

// The document with its signature.
fn document(
    alloc: Global,
    spec: &MdocSpec,
    alg: SignAlg,
    unsigned: &Unsigned,
    signature: &[u8],
) -> Result<Vec<u8>, NoMemory>
    requires { IsMadeOf (asked_of spec.now) unsigned.now }
    ensures { IfOk result (λ v. v.items ≡ document_for (asked_of spec.now) alg signature.now) }
{
    let key = Some(spec.key.as_slice());
    let payload = Some(unsigned.payload.as_slice());
    let auth = write_sign1(alloc, alg, key, payload, signature)?;
    Ok(issuer_signed(alloc, &auth, &unsigned.namespaces)?)
}
