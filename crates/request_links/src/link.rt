// A link with a request in it.
ghost use Rattle.std.specs.Prelude.{◌≡◌, IfOk, IfErr, map, string_bytes};
ghost use Rattle.std.specs.List.{before_first};
ghost use Rattle.request_links.specs.Link.{is_number_sign, values_rule, first_text};
ghost use Rattle.request_links.specs.Refusal.{IsRead, IsRefusal};

use crate::error::Error;
use crate::parameters::Parameters;
use std::alloc::Global;
use std::marker::Model;

/// What a link carries: a client's identifier, and a request object.
#[derive(Drop)]
pub struct Link {
    client: String,
    object: String,
}

impl Model for Link {
    ghost use Rattle.std.specs.Prelude.{string_bytes};
    ghost use Rattle.request_links.specs.Link.{Link as Meant};

    ghost Value = { Meant };

    ghost view = { λ l. record { client = string_bytes l.client; object = string_bytes l.object } };
}

impl Link {
    /// The client's identifier.
    pub fn client(&self) -> &str
        ensures { result.now ≡ self.now.client }
    {
        self.client.as_str()
    }

    /// The request object.
    pub fn object(&self) -> &str
        ensures { result.now ≡ self.now.object }
    {
        self.object.as_str()
    }
}

/// Reads a link. None where the text has no question mark.
///
/// # Errors
///
/// The first rule that is broken: 1 `client_id`, `request` or `request_uri` stands twice; 2 there is no
/// `client_id`, or not exactly one of `request` and `request_uri`; 3 there is a `request_uri`, which is not
/// followed.
pub fn read_link(alloc: Global, text: &str) -> Result<Option<Link>, Error>
    ensures read { IfOk result (λ link. IsRead text.now link) }
    ensures refused { IfErr result (λ error. IsRefusal text.now error) }
{
    let Some((_, query)) = text.split_once('?') else {
        return Ok(None);
    };
    let parameters = Parameters::of(alloc, before_number_sign(query))?;
    if let Some(rule) = broken_rule(&parameters) {
        return Err(Error::Refused(rule));
    }
    Ok(Some(Link {
        client: first_of(alloc, parameters.clients),
        object: first_of(alloc, parameters.requests),
    }))
}

fn before_number_sign(query: &str) -> &str
    ensures { result.now ≡ before_first is_number_sign query.now }
{
    match query.split_once('#') {
        Some((form, _)) => form,
        None => query,
    }
}

#[tactic(auto, unfolding(base_forms::specs::Rules::rule))]
fn broken_rule(parameters: &Parameters) -> Option<u8>
    ensures { result ≡ values_rule (map (λ s. string_bytes s) parameters.now.clients.items)
        (map (λ s. string_bytes s) parameters.now.requests.items)
        (map (λ s. string_bytes s) parameters.now.references.items) }
{
    let clients = parameters.clients.len();
    let requests = parameters.requests.len();
    let references = parameters.references.len();
    if clients > 1 || requests > 1 || references > 1 {
        Some(1)
    } else if clients == 0 || (requests == 0) == (references == 0) {
        Some(2)
    } else if references > 0 {
        Some(3)
    } else {
        None
    }
}

// The first value, and the empty text where there is none.
fn first_of(alloc: Global, values: Vec<String>) -> String
    ensures { string_bytes result ≡ first_text (map (λ s. string_bytes s) values.items) }
{
    match values.into_iter().next() {
        Some(value) => value,
        None => String::new(alloc),
    }
}
