// The query of a request.
ghost use Rattle.std.specs.Prelude.{◌≡◌, None, IfOk, IfErr};
ghost use Rattle.serde_json.specs.View.{view};
ghost use Rattle.dcql_rules.specs.Rules.{query_rule};
ghost use Rattle.dcql_query.specs.Meaning.{meaning_of};
ghost use Rattle.request_content.specs.Content.{content_rule, query_in};
ghost use Rattle.request_content.specs.Rules.{within};
ghost use Rattle.request_content.specs.code.Errors.{IsRefusal};

use crate::address::has_address;
use crate::content_rules::{response_rule, session_rule};
use crate::error::{Error, query_refusal, rule};
use dcql_query::Query;
use serde_json::Value;
use std::alloc::Global;

/// The query that a payload asks, where its parameters break none of the rules 10 to 21.
///
/// # Errors
///
/// The first rule that is broken: 10 there is a `request` or a `request_uri`; 11 there is an `aud` without
/// `https://self-issued.me/v2`; 12 `response_type` is not `vp_token`; 13 `response_mode` is not
/// `direct_post`; 14 there is a `redirect_uri`; 15 `response_uri` is no text, or no URL; 16 `nonce` is no
/// text of one or more letters, digits, `-`, `.`, `_` and `~`; 17 `state` is no text; 18 there is a `scope`;
/// 19 there is `transaction_data`; 20 there is no `dcql_query`; 21 the query is refused, with its broken rule
/// inside. Out of memory.
pub fn read_query(alloc: Global, payload: &Value) -> Result<Query, Error>
    ensures unbroken { IfOk result (λ _. content_rule (view payload.now) ≡ None) }
    ensures query { IfOk result (λ query. query ≡ meaning_of (query_in (view payload.now))) }
    ensures refused { IfErr result (λ error. IsRefusal (content_rule (view payload.now)) error) }
{
    if let Some(broken) = response_rule(payload) {
        return Err(Error::Refused(broken));
    }
    if !has_address(alloc, payload)? {
        return Err(Error::Refused(rule(15)));
    }
    if let Some(broken) = session_rule(payload) {
        return Err(Error::Refused(broken));
    }
    query_of(alloc, payload)
}

// The query of a payload, by rule 21. A payload without one has the query null, which breaks a rule.
fn query_of(alloc: Global, payload: &Value) -> Result<Query, Error>
    ensures unbroken { IfOk result (λ _. query_rule (query_in (view payload.now)) ≡ None) }
    ensures query { IfOk result (λ query. query ≡ meaning_of (query_in (view payload.now))) }
    ensures refused { IfErr result (λ error.
        IsRefusal (within 21 (query_rule (query_in (view payload.now)))) error) }
{
    let read = match payload.get("dcql_query") {
        Some(query) => Query::from_json(alloc, query),
        None => Query::from_json(alloc, &Value::Null),
    };
    match read {
        Ok(query) => Ok(query),
        Err(error) => Err(query_refusal(error)),
    }
}
