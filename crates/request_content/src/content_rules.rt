// The rules of a request's parameters.
ghost use Rattle.std.specs.Prelude.{◌≡◌, codes, false, map};
ghost use Rattle.std.specs.List.{list_all, list_any};
ghost use Rattle.serde_json.specs.View.{view};
ghost use Rattle.request_content.specs.Content.{response_rule, session_rule, is_text_at, has, has_request};
ghost use Rattle.request_content.specs.Content.{has_nonce, is_nonce, is_unreserved, is_no_text};
ghost use Rattle.request_content.specs.Content.{is_wallet, is_audience, is_for_wallet};

use crate::error::{RequestRule, rule};
use json_forms::{elements, text_at};
use serde_json::Value;

/// The first of the rules 10 to 14 that is broken.
#[tactic(auto, unfolding(base_forms::specs::Rules::rule))]
pub fn response_rule(payload: &Value) -> Option<RequestRule>
    ensures { result ≡ response_rule (view payload.now) }
{
    if has_request(payload) {
        Some(rule(10))
    } else if !is_for_wallet(payload) {
        Some(rule(11))
    } else if !is_text_at(payload, "response_type", "vp_token") {
        Some(rule(12))
    } else if !is_text_at(payload, "response_mode", "direct_post") {
        Some(rule(13))
    } else if has(payload, "redirect_uri") {
        Some(rule(14))
    } else {
        None
    }
}

/// The first of the rules 16 to 20 that is broken.
#[tactic(auto, unfolding(base_forms::specs::Rules::rule))]
pub fn session_rule(payload: &Value) -> Option<RequestRule>
    ensures { result ≡ session_rule (view payload.now) }
{
    if !has_nonce(payload) {
        Some(rule(16))
    } else if is_no_text(payload, "state") {
        Some(rule(17))
    } else if has(payload, "scope") {
        Some(rule(18))
    } else if has(payload, "transaction_data") {
        Some(rule(19))
    } else if !has(payload, "dcql_query") {
        Some(rule(20))
    } else {
        None
    }
}

fn has(payload: &Value, name: &str) -> bool
    ensures { result ≡ has name.now (view payload.now) }
{
    payload.get(name).is_some()
}

// Whether a request stands inside the request, or a reference to one.
fn has_request(payload: &Value) -> bool
    ensures { result ≡ has_request (view payload.now) }
{
    has(payload, "request") || has(payload, "request_uri")
}

fn is_text_at(payload: &Value, name: &str, wanted: &str) -> bool
    ensures { result ≡ is_text_at name.now wanted.now (view payload.now) }
{
    match text_at(payload, name) {
        Some(text) => text == wanted,
        None => false,
    }
}

fn is_no_text(payload: &Value, name: &str) -> bool
    ensures { result ≡ is_no_text name.now (view payload.now) }
{
    has(payload, name) && text_at(payload, name).is_none()
}

// Whether the wallet is an audience, where one is named.
fn is_for_wallet(payload: &Value) -> bool
    ensures { result ≡ is_for_wallet (view payload.now) }
{
    match payload.get("aud") {
        Some(audience) => is_audience(audience),
        None => true,
    }
}

fn is_audience(audience: &Value) -> bool
    ensures { result ≡ is_audience (view audience.now) }
{
    is_wallet(audience) || have_wallet(elements(audience))
}

fn have_wallet(members: &[Value]) -> bool
    ensures { result ≡ list_any is_wallet (map view members.now) }
{
    members.iter().any(|member| is_wallet(member))
}

fn is_wallet(audience: &Value) -> bool
    ensures { result ≡ is_wallet (view audience.now) }
{
    match audience.as_str() {
        Some(text) => text == "https://self-issued.me/v2",
        None => false,
    }
}

fn has_nonce(payload: &Value) -> bool
    ensures { result ≡ has_nonce (view payload.now) }
{
    match text_at(payload, "nonce") {
        Some(text) => is_nonce(text),
        None => false,
    }
}

fn is_nonce(text: &str) -> bool
    ensures { result ≡ is_nonce text.now }
{
    !text.is_empty() && are_unreserved(text)
}

fn are_unreserved(text: &str) -> bool
    ensures { result ≡ list_all is_unreserved text.now }
{
    for byte in text.as_bytes() {
        if !is_unreserved(*byte) {
            return false;
        }
    }
    true
}

fn is_unreserved(byte: u8) -> bool
    ensures { result ≡ is_unreserved byte }
{
    matches!(byte, b'A'..=b'Z' | b'a'..=b'z' | b'0'..=b'9' | b'-' | b'_' | b'.' | b'~')
}
