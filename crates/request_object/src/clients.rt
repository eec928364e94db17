// The rules of a signed message before its signature is judged.
ghost use Rattle.std.specs.Prelude.{◌≡◌, option_map, codes, false, None, IsSome};
ghost use Rattle.serde_json.specs.View.{view};
ghost use Rattle.jws_envelope.specs.Jws.{envelope as said};
ghost use Rattle.request_clients.specs.Clients.{key_of};
ghost use Rattle.request_object.specs.Front.{client_rule, has_type, differs};
ghost use Rattle.request_object.specs.Front.{client_of, text_of, is_no_client, begins};

use json_forms::text_at;
use jws_envelope::Jws;
use request_clients::Clients;
use request_content::{RequestRule, rule};
use serde_json::Value;

/// The first of the rules 5 to 8 that is broken.
#[tactic(auto, unfolding(base_forms::specs::Rules::rule))]
pub fn client_rule(clients: &Clients, outer: Option<&str>, jws: &Jws<'_>) -> Option<RequestRule>
    ensures rule { result ≡ client_rule clients.now (option_map (λ s. s.now) outer.entry) (said jws.now) }
    ensures known { result ≡ None → IsSome (key_of clients.now (client_of (said jws.now))) }
{
    let client = client_of(jws.payload());
    if !has_type(jws.header()) {
        Some(rule(5))
    } else if text_at(jws.payload(), "client_id").is_none() {
        Some(rule(6))
    } else if differs(outer, client) {
        Some(rule(7))
    } else if is_no_client(clients, client) {
        Some(rule(8))
    } else {
        None
    }
}

// Whether the identifier has a prefix that no signed request may have, or is that of no client.
fn is_no_client(clients: &Clients, id: &str) -> bool
    ensures no_client { result ≡ is_no_client clients.now id.now }
    ensures known { result ≡ false → IsSome (key_of clients.now id.now) }
{
    if begins(id, "redirect_uri:") {
        return true;
    }
    if begins(id, "origin:") {
        return true;
    }
    clients.key_of(id).is_none()
}

fn begins(text: &str, front: &str) -> bool
    ensures { result ≡ begins front.now text.now }
{
    text.as_bytes().starts_with(front.as_bytes())
}

/// The client's identifier, and the empty text where there is none.
pub fn client_of(payload: &Value) -> &str
    ensures { result.now ≡ text_of (codes "client_id") (view payload.now) }
{
    text_at(payload, "client_id").unwrap_or("")
}

fn has_type(header: &Value) -> bool
    ensures { result ≡ has_type (view header.now) }
{
    match text_at(header, "typ") {
        Some(text) => text == "oauth-authz-req+jwt",
        None => false,
    }
}

fn differs(outer: Option<&str>, client: &str) -> bool
    ensures { result ≡ differs (option_map (λ s. s.now) outer.entry) client.now }
{
    match outer {
        Some(text) => text != client,
        None => false,
    }
}
