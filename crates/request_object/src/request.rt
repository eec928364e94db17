// What a request asks.
ghost use Rattle.std.specs.Prelude.{◌≡◌, option_map};
ghost use Rattle.runs.specs.Runs.{Runs};
ghost use Rattle.runs.specs.World.{World};
ghost use Rattle.request_object.specs.Endings.{ending};
ghost use Rattle.request_object.specs.Request.{request_tree};

use crate::error::Error;
use crate::read::read_text;
use dcql_query::Query;
use key_device::KeyDevice;
use request_clients::Clients;
use std::alloc::Global;
use std::marker::Model;

/// What is asked: the query, by which client, for which nonce, and where the response is to be posted.
#[derive(Clone, Copy)]
pub struct Asked<'a> {
    pub query: &'a Query,
    pub client: &'a str,
    pub nonce: &'a str,
    pub uri: &'a str,
}

/// A request that breaks no rule. All that it asks stands inside the signed object.
#[derive(Drop)]
pub struct Request {
    pub(crate) query: Query,
    pub(crate) client: String,
    pub(crate) nonce: String,
    pub(crate) uri: String,
    pub(crate) state: Option<String>,
}

impl Model for Request {
    ghost use Rattle.std.specs.Prelude.{option_map, string_bytes};
    ghost use Rattle.request_object.specs.Request.{Request as Meant};

    ghost Value = { Meant };

    ghost view = { λ r. record {
      query = r.query;
      client = string_bytes r.client;
      nonce = string_bytes r.nonce;
      uri = string_bytes r.uri;
      state = option_map string_bytes r.state;
    } };
}

impl Request {
    /// Reads a request object, or a link with one in it. The device is asked once, whether the signature is
    /// one by the client's key, exactly where the rules 1 to 8 hold.
    ///
    /// # Errors
    ///
    /// The first rule that is broken. Of a link: 1 `client_id`, `request` or `request_uri` stands twice; 2
    /// there is no `client_id`, or not exactly one of `request` and `request_uri`; 3 there is a
    /// `request_uri`, which is not followed. Of the object: 4 it is no signed message, with the broken rule
    /// of [`jws_envelope::Jws::read`] inside; 5 its `typ` is not `oauth-authz-req+jwt`; 6 its `client_id` is
    /// missing or no text; 7 the link names another client; 8 the client's identifier begins with
    /// `redirect_uri:` or `origin:`, or is that of no known client; 9 the device says no; 10 it holds a
    /// `request` or a `request_uri`; 11 there is an `aud` without `https://self-issued.me/v2`; 12
    /// `response_type` is not `vp_token`; 13 `response_mode` is not `direct_post`; 14 there is a
    /// `redirect_uri`; 15 `response_uri` is no text, or no URL; 16 `nonce` is no text of one or more letters,
    /// digits, `-`, `.`, `_` and `~`; 17 `state` is no text; 18 there is a `scope`; 19 there is
    /// `transaction_data`; 20 there is no `dcql_query`; 21 the query is refused, with its broken rule inside.
    ///
    /// A fault of the device, which comes only where the device was asked and failed; out of memory.
    pub fn read<K: KeyDevice>(
        alloc: Global,
        text: &str,
        clients: &Clients,
        device: &mut K,
    ) -> Result<Request, Error>
        ensures { (w : World) → Runs (request_tree clients.now text.now)
            (record w { device = K.state device.old }) (record w { device = K.state device.new })
            (ending (λ request. request) result) }
    {
        read_text(alloc, text, clients, device)
    }

    /// What is asked. Takes no memory.
    pub fn asked(&self) -> Asked<'_>
        ensures query { result.query.now ≡ self.now.query }
        ensures client { result.client.now ≡ self.now.client }
        ensures nonce { result.nonce.now ≡ self.now.nonce }
        ensures uri { result.uri.now ≡ self.now.uri }
    {
        Asked {
            query: &self.query,
            client: self.client.as_str(),
            nonce: self.nonce.as_str(),
            uri: self.uri.as_str(),
        }
    }

    /// The state that the response has to carry, if there is one. Takes no memory.
    pub fn state(&self) -> Option<&str>
        ensures { option_map (λ s. s.now) result ≡ self.now.state }
    {
        match &self.state {
            Some(text) => Some(text.as_str()),
            None => None,
        }
    }
}
