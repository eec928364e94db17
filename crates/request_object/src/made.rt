// The request object that a site makes.
ghost use Rattle.std.specs.Prelude.{◌≡◌, Some, None, Ok, false, IsSome, IfOk, OnOk, string_bytes};
ghost use Rattle.serde_json.specs.Data.{string, put};
ghost use Rattle.serde_json.specs.View.{view, members_view};
ghost use Rattle.serde_json.specs.Written.{has_float};
ghost use Rattle.claim_tree.specs.declared.algorithm.SignAlg.{SignAlg};
ghost use Rattle.jws_envelope.specs.Draft.{drafted};
ghost use Rattle.dcql_query.specs.Meaning.{query_of};
ghost use Rattle.runs.specs.Runs.{Runs};
ghost use Rattle.runs.specs.World.{World};
ghost use Rattle.request_object.specs.Endings.{ending};
ghost use Rattle.request_object.specs.Made.{payload_of, signed_tree, made_tree, IsReadAsAsked};
ghost use Rattle.request_object.specs.code.Asking.{asking};
ghost use Rattle.request_object.specs.code.Signed.{IsSignedText};

use crate::error::{Error, sign_refusal};
use crate::request::Asked;
use claim_tree::KeyName;
use jws_envelope::Draft;
use key_device::KeyDevice;
use serde_json::{Map, Value, put};
use std::alloc::{AllocError, Global};

/// The request object of a site: what is asked, with the state that the response has to carry, signed by the
/// key of this name, which is held. `query_json` is the query as JSON; it reads as the query that is asked,
/// and has no number that is no integer of 64 bits.
///
/// A wallet that judges yes what this device does reads it as what is asked, where it knows the client with
/// this key and no forbidden prefix, `response_uri` is a URL, the nonce is one or more letters, digits, `-`,
/// `.`, `_` and `~`, and the query has at most 126 levels.
///
/// # Errors
///
/// [`Error::DeviceFault`], which comes only where the device was asked and failed; out of memory. Nothing is
/// refused.
pub fn make_object<K: KeyDevice>(
    alloc: Global,
    asked: Asked<'_>,
    query_json: &Value,
    state: &str,
    key: &KeyName,
    device: &mut K,
) -> Result<String, Error>
    requires held { IsSome ((K.state device.old).held key.now) }
    requires asked { query_of (view query_json.now) ≡ Ok asked.query.now }
    requires whole { has_float (view query_json.now) ≡ false }
    ensures runs { (alg : SignAlg) → (K.state device.old).held key.now ≡ Some alg → (w : World)
        → Runs (made_tree alg key.now (asking asked.entry (view query_json.now) state.now))
        (record w { device = K.state device.old }) (record w { device = K.state device.new })
        (ending string_bytes result) }
    ensures read { IfOk result (λ text. IsReadAsAsked key.now
        (asking asked.entry (view query_json.now) state.now) (K.state device.new).judged
        (string_bytes text)) }
{
    let Some(alg) = device.holds(key) else {
        unreachable!()
    };
    let payload = payload_of(alloc, asked, query_json, state)?;
    let draft = Draft::new(alloc, alg, "oauth-authz-req+jwt", None, &payload)?;
    sign_draft(alloc, draft, key, device)
}

// The drafted message with a signature by the key of this name.
fn sign_draft<K: KeyDevice>(
    alloc: Global,
    draft: Draft,
    key: &KeyName,
    device: &mut K,
) -> Result<String, Error>
    requires { IsSome ((K.state device.old).held key.now) }
    ensures runs { (w : World) → Runs (signed_tree key.now (drafted draft))
        (record w { device = K.state device.old }) (record w { device = K.state device.new })
        (ending string_bytes result) }
    ensures signed { IfOk result (λ text. IsSignedText (K.state device.old).held (K.state device.new).judged
        key.now (drafted draft) (string_bytes text)) }
{
    match device.sign(alloc, key, draft.signing_input().as_bytes()) {
        Ok(signature) => Ok(draft.finish(alloc, &signature)?),
        Err(error) => Err(sign_refusal(error)),
    }
}

// The parameters of a site's request.
fn payload_of(
    alloc: Global,
    asked: Asked<'_>,
    query_json: &Value,
    state: &str,
) -> Result<Value, AllocError>
    ensures { IfOk result (λ v. view v
        ≡ payload_of (asking asked.entry (view query_json.now) state.now)) }
{
    let mut members = Map::new(alloc);
    put_text(alloc, &mut members, "aud", "https://self-issued.me/v2")?;
    put_text(alloc, &mut members, "client_id", asked.client)?;
    put(&mut members, alloc, "dcql_query", query_json.clone()?)?;
    put_text(alloc, &mut members, "nonce", asked.nonce)?;
    put_text(alloc, &mut members, "response_mode", "direct_post")?;
    put_text(alloc, &mut members, "response_type", "vp_token")?;
    put_text(alloc, &mut members, "response_uri", asked.uri)?;
    put_text(alloc, &mut members, "state", state)?;
    Ok(Value::Object(members))
}

fn put_text(
    alloc: Global,
    members: &mut Map<String, Value>,
    name: &str,
    text: &str,
) -> Result<(), AllocError>
    ensures { OnOk result (members_view members.new.entries
        ≡ put name.now (string text.now) (members_view members.old.entries)) }
{
    put(
        members,
        alloc,
        name,
        Value::String(String::from_str(alloc, text)?),
    )
}
