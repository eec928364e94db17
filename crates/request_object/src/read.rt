// The reading of a request.
ghost use Rattle.std.specs.Prelude.{◌≡◌, IsSome, option_map};
ghost use Rattle.jws_envelope.specs.Jws.{envelope as said};
ghost use Rattle.jws_envelope.specs.Seal.{jws_seal};
ghost use Rattle.key_device.specs.Device.{IsJudged, judged_as};
ghost use Rattle.runs.specs.Runs.{Runs};
ghost use Rattle.runs.specs.World.{World};
ghost use Rattle.request_clients.specs.Clients.{key_of};
ghost use Rattle.request_object.specs.Endings.{ending};
ghost use Rattle.request_object.specs.Front.{client_of};
ghost use Rattle.request_object.specs.Request.{request_tree, key_for};
ghost use Rattle.request_object.specs.code.Parts.{object_tree, message_tree};

use crate::clients::{client_of, client_rule};
use crate::content::read_content;
use crate::error::{Error, link_refusal, message_refusal};
use crate::request::Request;
use jws_envelope::Jws;
use key_device::{Judged, KeyDevice};
use request_clients::Clients;
use request_content::rule;
use request_links::read_link;
use std::alloc::Global;

/// Reads a request object, or a link with one in it.
pub fn read_text<K: KeyDevice>(
    alloc: Global,
    text: &str,
    clients: &Clients,
    device: &mut K,
) -> Result<Request, Error>
    ensures { (w : World) → Runs (request_tree clients.now text.now)
        (record w { device = K.state device.old }) (record w { device = K.state device.new })
        (ending (λ request. request) result) }
{
    let found = match read_link(alloc, text) {
        Ok(found) => found,
        Err(error) => return Err(link_refusal(error)),
    };
    match &found {
        Some(link) => read_object(alloc, link.object(), Some(link.client()), clients, device),
        None => read_object(alloc, text, None, clients, device),
    }
}

// Reads a request object; `outer` is the client's identifier of the link that it stands in, if it stands in
// one.
fn read_object<K: KeyDevice>(
    alloc: Global,
    object: &str,
    outer: Option<&str>,
    clients: &Clients,
    device: &mut K,
) -> Result<Request, Error>
    ensures { (w : World) → Runs (object_tree clients.now (option_map (λ s. s.now) outer.entry) object.now)
        (record w { device = K.state device.old }) (record w { device = K.state device.new })
        (ending (λ request. request) result) }
{
    match Jws::read(alloc, object) {
        Ok(jws) => read_message(alloc, &jws, outer, clients, device),
        Err(error) => Err(message_refusal(error)),
    }
}

// Reads the signed message of a request object.
fn read_message<K: KeyDevice>(
    alloc: Global,
    jws: &Jws<'_>,
    outer: Option<&str>,
    clients: &Clients,
    device: &mut K,
) -> Result<Request, Error>
    ensures { (w : World) → Runs (message_tree clients.now (option_map (λ s. s.now) outer.entry)
        (said jws.now))
        (record w { device = K.state device.old }) (record w { device = K.state device.new })
        (ending (λ request. request) result) }
{
    if let Some(broken) = client_rule(clients, outer, jws) {
        return Err(Error::Refused(broken));
    }
    match judge(clients, jws, device) {
        Judged::Failed => Err(Error::DeviceFault),
        Judged::No => Err(Error::Refused(rule(9))),
        Judged::Yes => read_content(alloc, jws.payload()),
    }
}

// What the device says of the message's signature, under the client's key.
fn judge<K: KeyDevice>(clients: &Clients, jws: &Jws<'_>, device: &mut K) -> Judged
    requires { IsSome (key_of clients.now (client_of (said jws.now))) }
    ensures { IsJudged (key_for clients.now (said jws.now)) (jws_seal (said jws.now)).algorithm
        (jws_seal (said jws.now)).message (jws_seal (said jws.now)).signature
        (K.state device.old) (K.state device.new) (judged_as result) }
{
    match clients.key_of(client_of(jws.payload())) {
        Some(key) => device.judge(
            key,
            jws.alg(),
            jws.signing_input().as_bytes(),
            jws.signature(),
        ),
        None => unreachable!(),
    }
}
