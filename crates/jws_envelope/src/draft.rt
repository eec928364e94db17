// Signed messages as they are written.
ghost use Rattle.std.specs.Prelude.{◌≡◌, ◌≤◌, false, true, IfOk, Ok, Some, option_map, string_bytes};
ghost use Rattle.serde_json.specs.Data.{Data, string, depth};
ghost use Rattle.serde_json.specs.Read.{max_depth};
ghost use Rattle.serde_json.specs.View.{view};
ghost use Rattle.serde_json.specs.Written.{has_float, compact_text};
ghost use Rattle.base_forms.specs.Url64.{url64_of};
ghost use Rattle.json_forms.specs.Look.{is_object};
ghost use Rattle.json_forms.specs.Text.{json_of};
ghost use Rattle.jws_envelope.specs.Draft.{header_of, input_of};

use crate::error::NoMemory;
use base_forms::to_url64;
use claim_tree::SignAlg;
use serde_json::{Map, Value, put};
use std::alloc::Global;

/// A message (RFC 7515) that is written up to its signature.
#[derive(Drop)]
pub struct Draft {
    signing_input: String,
}

impl Draft {
    ghost use Rattle.jws_envelope.specs.Envelope.{jws_of};
    ghost use Rattle.jws_envelope.specs.Draft.{message_of, meant, IsReadAs, drafted};

    /// Drafts a message. Its header has the algorithm, the type and, where one is given, the identifier of
    /// the key. Header and payload are written as compact JSON, so no number of the payload may be one that
    /// is no integer of 64 bits. The message is read again where the payload is an object of at most 127
    /// levels.
    pub fn new(
        alloc: Global,
        alg: SignAlg,
        typ: &str,
        kid: Option<&str>,
        payload: &Value,
    ) -> Result<Draft, NoMemory>
        requires { has_float (view payload.now) ≡ false }
        ensures written { IfOk result (λ d. drafted d
            ≡ input_of (header_of alg typ.now (option_map (λ s. s.now) kid.entry)) (view payload.now)) }
        ensures read { IfOk result (λ d. is_object (view payload.now) ≡ true
            → depth (view payload.now) ≤ max_depth
            → IsReadAs (header_of alg typ.now (option_map (λ s. s.now) kid.entry)) (view payload.now)
            (drafted d)) }
    {
        let header = header(alloc, alg, typ, kid)?;
        let signing_input = signing_input(alloc, &header, payload)?;
        Ok(Draft { signing_input })
    }

    /// What the signature has to be over.
    pub fn signing_input(&self) -> &str
        ensures { result.now ≡ drafted self.now }
    {
        self.signing_input.as_str()
    }

    /// The message with its signature, in compact serialization.
    pub fn finish(self, alloc: Global, signature: &[u8]) -> Result<String, NoMemory>
        ensures written { IfOk result (λ text. string_bytes text
            ≡ message_of (drafted self) signature.now) }
        ensures read { IfOk result (λ text. (header payload : Data)
            → IsReadAs header payload (drafted self)
            → jws_of (string_bytes text) ≡ Ok (meant header payload (drafted self) signature.now)) }
    {
        let mut text = self.signing_input;
        let signature = to_url64(alloc, signature)?;
        text.push('.')?;
        text.push_str(signature.as_str())?;
        Ok(text)
    }
}

fn header(alloc: Global, alg: SignAlg, typ: &str, kid: Option<&str>) -> Result<Value, NoMemory>
    ensures { IfOk result (λ v. view v
        ≡ header_of alg typ.now (option_map (λ s. s.now) kid.entry)) }
{
    let mut members = Map::new(alloc);
    put(&mut members, alloc, "alg", text(alloc, alg.jose())?)?;
    if let Some(kid) = kid {
        put(&mut members, alloc, "kid", text(alloc, kid)?)?;
    }
    put(&mut members, alloc, "typ", text(alloc, typ)?)?;
    Ok(Value::Object(members))
}

fn text(alloc: Global, text: &str) -> Result<Value, NoMemory>
    ensures { IfOk result (λ v. view v ≡ string text.now) }
{
    Ok(Value::String(String::from_str(alloc, text)?))
}

// Header and payload with a dot between them.
fn signing_input(alloc: Global, header: &Value, payload: &Value) -> Result<String, NoMemory>
    requires header { has_float (view header.now) ≡ false }
    requires payload { has_float (view payload.now) ≡ false }
    ensures written { IfOk result (λ t. string_bytes t ≡ input_of (view header.now) (view payload.now)) }
    ensures header { IfOk result (λ t. depth (view header.now) ≤ max_depth
        → json_of (compact_text (view header.now)) ≡ Some (view header.now)) }
    ensures payload { IfOk result (λ t. depth (view payload.now) ≤ max_depth
        → json_of (compact_text (view payload.now)) ≡ Some (view payload.now)) }
{
    let mut text = part(alloc, header)?;
    let payload = part(alloc, payload)?;
    text.push('.')?;
    text.push_str(payload.as_str())?;
    Ok(text)
}

// The base64url of a value's compact JSON.
fn part(alloc: Global, value: &Value) -> Result<String, NoMemory>
    requires { has_float (view value.now) ≡ false }
    ensures written { IfOk result (λ t. string_bytes t ≡ url64_of (compact_text (view value.now))) }
    ensures read { IfOk result (λ t. depth (view value.now) ≤ max_depth
        → json_of (compact_text (view value.now)) ≡ Some (view value.now)) }
{
    let json = value.to_string(alloc)?;
    Ok(to_url64(alloc, json.as_bytes())?)
}
