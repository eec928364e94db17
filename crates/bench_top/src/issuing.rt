// Issuing a test credential.
ghost use Rattle.std.specs.Prelude.{◌≡◌, IfOk, string_bytes};
ghost use Rattle.runs.specs.Runs.{Runs};
ghost use Rattle.runs.specs.World.{World};
ghost use Rattle.sdjwt_issue.specs.Endings as sdjwt;
ghost use Rattle.sdjwt_issue.specs.Spec.{IsSdJwtSpec};
ghost use Rattle.sdjwt_issue.specs.code.Asking as asked_sdjwt;
ghost use Rattle.mdoc_issue.specs.Spec.{IsMdocSpec};
ghost use Rattle.mdoc_issue.specs.code.Asking as asked_mdoc;
ghost use Rattle.bench_top.specs.Issued.{IsDocument, IsIssued};
ghost use Rattle.bench_top.specs.Issuing.{sdjwt_tree, mdoc_tree, issue_tree};
ghost use Rattle.bench_top.specs.code.Endings.{ending};

use crate::error::Error;
use base_forms::to_url64;
use issue_spec::{IssueSpec, read_spec};
use key_device::KeyDevice;
use mdoc_issue::MdocSpec;
use sdjwt_issue::SdJwtSpec;
use std::alloc::Global;

/// Issues the credential that a spec, a JSON text, asks for: gives the text of its file, without a line feed.
/// The device is asked for one signature, exactly where the spec breaks none of the first five rules and the
/// issuer's key is held, and where no two disclosures share a digest. The same spec and the same signature
/// give the same text.
///
/// # Errors
///
/// `Refused` with the least rule that the spec breaks: 1 to 5 as [`issue_spec::read_spec`] says; 6 where two
/// disclosures have one digest. `KeyMissing` where it breaks none and the device does not hold the key.
/// `DeviceFault` exactly where the device failed; out of memory.
pub fn issue<K: KeyDevice>(alloc: Global, spec: &str, device: &mut K) -> Result<String, Error>
    ensures runs { (w : World) → Runs (issue_tree (K.state device.old).held spec.now)
        (record w { device = K.state device.old }) (record w { device = K.state device.new })
        (ending result) }
    ensures issued { IfOk result (λ text. IsIssued spec.now (K.state device.old).held
        (K.state device.new).judged (string_bytes text)) }
{
    match read_spec(alloc, spec)? {
        IssueSpec::SdJwt(spec) => issue_sd_jwt(alloc, &spec, device),
        IssueSpec::Mdoc(spec) => issue_document(alloc, &spec, device),
    }
}

fn issue_sd_jwt<K: KeyDevice>(
    alloc: Global,
    spec: &SdJwtSpec,
    device: &mut K,
) -> Result<String, Error>
    requires { IsSdJwtSpec (asked_sdjwt.asked_of spec.now) }
    ensures runs { (w : World)
        → Runs (sdjwt_tree (K.state device.old).held (asked_sdjwt.asked_of spec.now))
        (record w { device = K.state device.old }) (record w { device = K.state device.new })
        (ending result) }
    ensures issued { IfOk result (λ text. sdjwt.IsIssued (asked_sdjwt.asked_of spec.now)
        (K.state device.old).held (K.state device.new).judged (string_bytes text)) }
{
    Ok(sdjwt_issue::issue(alloc, spec, device)?)
}

fn issue_document<K: KeyDevice>(
    alloc: Global,
    spec: &MdocSpec,
    device: &mut K,
) -> Result<String, Error>
    requires { IsMdocSpec (asked_mdoc.asked_of spec.now) }
    ensures runs { (w : World)
        → Runs (mdoc_tree (K.state device.old).held (asked_mdoc.asked_of spec.now))
        (record w { device = K.state device.old }) (record w { device = K.state device.new })
        (ending result) }
    ensures issued { IfOk result (λ text. IsDocument (asked_mdoc.asked_of spec.now)
        (K.state device.old).held (K.state device.new).judged (string_bytes text)) }
{
    let document = mdoc_issue::issue(alloc, spec, device)?;
    Ok(to_url64(alloc, &document)?)
}
