// What the names of keys say.
ghost use Rattle.std.specs.Prelude.{◌≡◌, IfOk, IfSome, option_map};
ghost use Rattle.serde_json.specs.View.{view};
ghost use Rattle.sdjwt_facts.specs.Facts.{is_key};
ghost use Rattle.sdjwt_spec.specs.Names.{value_in, text_in, two_texts, kid_parts, jwk_in};
ghost use Rattle.sdjwt_spec.specs.code.Parts.{parts_of};

use claim_tree::KeyName;
use json_forms::{elements, has_float, read_json};
use jws_envelope::key_names::{jwk_name, kid_name};
use serde_json::Value;
use spec_forms::{NoMemory, after_colon};
use std::alloc::{AllocError, Global};

// The name of an issuer's key, and what it says.
#[derive(Drop)]
pub(crate) struct IssuerKey {
    pub(crate) name: KeyName,
    pub(crate) issuer: String,
    pub(crate) key: String,
}

// What a `kid:` name says, where the text is one.
pub(crate) fn read_kid_name(alloc: Global, name: &str) -> Result<Option<IssuerKey>, NoMemory>
    ensures parts { IfOk result (λ o. option_map parts_of o ≡ kid_parts name.now) }
    ensures named { IfOk result (λ o. IfSome o (λ k. k.name ≡ name.now)) }
{
    let Some(value) = value_in(alloc, name)? else {
        return Ok(None);
    };
    let Some(parts) = two_texts(&value) else {
        return Ok(None);
    };
    let written = kid_name(alloc, parts.0, parts.1)?;
    if name != written.text() {
        return Ok(None);
    }
    Ok(Some(IssuerKey {
        name: written,
        issuer: String::from_str(alloc, parts.0)?,
        key: String::from_str(alloc, parts.1)?,
    }))
}

// The key of a `jwk:` name, where the text is one.
pub(crate) fn read_jwk_name(alloc: Global, name: &str) -> Result<Option<Value>, NoMemory>
    ensures { IfOk result (λ o. option_map view o ≡ jwk_in name.now) }
{
    let Some(value) = value_in(alloc, name)? else {
        return Ok(None);
    };
    if !is_key(&value) {
        return Ok(None);
    }
    let written = jwk_name(alloc, &value)?;
    if name != written.text() {
        return Ok(None);
    }
    Ok(Some(value))
}

// The JSON value after the first colon.
fn value_in(alloc: Global, name: &str) -> Result<Option<Value>, AllocError>
    ensures { IfOk result (λ o. option_map view o ≡ value_in name.now) }
{
    read_json(alloc, after_colon(name).as_bytes())
}

// The strings of a list of two.
fn two_texts(list: &Value) -> Option<(&str, &str)>
    ensures { option_map (λ p. (p.0.now, p.1.now)) result ≡ two_texts (view list.now) }
{
    if elements(list).len() != 2 {
        return None;
    }
    match (text_in(list, 0), text_in(list, 1)) {
        (Some(first), Some(second)) => Some((first, second)),
        _ => None,
    }
}

fn text_in(list: &Value, place: usize) -> Option<&str>
    ensures { option_map (λ s. s.now) result ≡ text_in place (view list.now) }
{
    match list.get(place) {
        Some(element) => element.as_str(),
        None => None,
    }
}

fn is_key(jwk: &Value) -> bool
    ensures { result ≡ is_key (view jwk.now) }
{
    jwk.is_object() && !has_float(jwk)
}
