// What a payload asks.
ghost use Rattle.std.specs.Prelude.{◌≡◌, None, IfOk, IfErr};
ghost use Rattle.serde_json.specs.View.{view};
ghost use Rattle.dcql_query.specs.Meaning.{meaning_of};
ghost use Rattle.request_content.specs.Content.{content_rule, query_in};
ghost use Rattle.request_object.specs.Request.{asked_by};
ghost use Rattle.request_object.specs.code.Errors.{IsRefusal};

use crate::clients::client_of;
use crate::error::{Error, content_refusal};
use crate::request::Request;
use dcql_query::Query;
use json_forms::text_at;
use request_content::read_query;
use serde_json::Value;
use std::alloc::{AllocError, Global};

/// What a payload asks that breaks none of the rules 10 to 21.
pub fn read_content(alloc: Global, payload: &Value) -> Result<Request, Error>
    ensures unbroken { IfOk result (λ _. content_rule (view payload.now) ≡ None) }
    ensures asked { IfOk result (λ request. request ≡ asked_by (view payload.now)) }
    ensures refused { IfErr result (λ error. IsRefusal (content_rule (view payload.now)) error) }
{
    match read_query(alloc, payload) {
        Ok(query) => Ok(request_in(alloc, payload, query)?),
        Err(error) => Err(content_refusal(error)),
    }
}

// What a payload with this query asks.
fn request_in(alloc: Global, payload: &Value, query: Query) -> Result<Request, AllocError>
    ensures { IfOk result (λ request. query ≡ meaning_of (query_in (view payload.now))
        → request ≡ asked_by (view payload.now)) }
{
    let state = match text_at(payload, "state") {
        Some(text) => Some(String::from_str(alloc, text)?),
        None => None,
    };
    Ok(Request {
        query,
        client: String::from_str(alloc, client_of(payload))?,
        nonce: String::from_str(alloc, text_at(payload, "nonce").unwrap_or(""))?,
        uri: String::from_str(alloc, text_at(payload, "response_uri").unwrap_or(""))?,
        state,
    })
}
