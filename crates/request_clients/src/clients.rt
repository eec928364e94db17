// The clients that are known.
ghost use Rattle.std.specs.Prelude.{◌≡◌, option_map};
ghost use Rattle.request_clients.specs.Clients.{key_of};

use claim_tree::KeyName;
use std::marker::Model;

/// A client: its identifier, and the name of its key.
#[derive(Drop)]
pub(crate) struct Client {
    pub(crate) id: String,
    pub(crate) key: KeyName,
}

impl Model for Client {
    ghost use Rattle.std.specs.Prelude.{string_bytes};
    ghost use Rattle.request_clients.specs.Clients.{Client as Meant};

    ghost Value = { Meant };

    ghost view = { λ c. record { id = string_bytes c.id; key = c.key } };
}

/// The clients that are known, at most 256, no two of one identifier. Contracts see them as a list.
#[derive(Drop)]
pub struct Clients {
    pub(crate) clients: Vec<Client>,
}

impl Model for Clients {
    ghost use Rattle.std.specs.Prelude.{List};
    ghost use Rattle.request_clients.specs.Clients.{Client as Meant};

    ghost Value = { List Meant };

    ghost view = { λ c. c.clients.items };
}

impl Clients {
    /// The name of the key of the client with this identifier, which is compared as a whole. Takes no memory.
    pub fn key_of(&self, id: &str) -> Option<&KeyName>
        ensures { option_map (λ k. k.now) result ≡ key_of self.now id.now }
    {
        key_of(&self.clients, id)
    }
}

/// The name of the key of the first client with this identifier.
pub(crate) fn key_of<'a>(clients: &'a [Client], id: &str) -> Option<&'a KeyName>
    ensures { option_map (λ k. k.now) result ≡ key_of clients.now id.now }
{
    for client in clients {
        if client.id.as_str() == id {
            return Some(&client.key);
        }
    }
    None
}
