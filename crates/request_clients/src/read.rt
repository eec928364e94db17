// The lines of the clients file.
ghost use Rattle.std.specs.Prelude.{◌≡◌, ◌<◌, Ok, IfOk, IfErr, IfSome, length};
ghost use Rattle.std.specs.List.{list_any};
ghost use Rattle.request_clients.specs.Clients.{client_of, next_client, clients_in, is_tab};
ghost use Rattle.request_clients.specs.Refusal.{IsBadLine};

use crate::clients::{Client, Clients, key_of};
use crate::error::Error;
use base_forms::cut_line;
use claim_tree::{KeyName, NoMemory};
use std::alloc::Global;

const MOST_CLIENTS: usize = 256;

impl Clients {
    /// Reads a text with a client a line: its identifier, a space, and the name of its key, which is the rest
    /// of the line. The identifier holds no blank, and neither it nor the name is empty. There are at most
    /// 256 lines, and no identifier stands in two of them.
    ///
    /// # Errors
    ///
    /// [`Error::Line`] with the number, from 1, of the first line that is not so; out of memory.
    pub fn read(alloc: Global, text: &str) -> Result<Clients, Error>
        ensures clients { IfOk result (λ clients. clients_in text.now ≡ Ok clients) }
        ensures refused { IfErr result (IsBadLine (clients_in text.now)) }
    {
        let clients = read_lines(alloc, text)?;
        Ok(Clients { clients })
    }
}

fn read_lines(alloc: Global, text: &str) -> Result<Vec<Client>, Error>
    ensures clients { IfOk result (λ clients. clients_in text.now ≡ Ok clients.items) }
    ensures refused { IfErr result (IsBadLine (clients_in text.now)) }
{
    let mut clients = Vec::new(alloc);
    let mut number = 1;
    let mut rest = text;
    while !rest.is_empty() {
        let (line, after) = cut_line(rest);
        match next_client(alloc, &clients, line)? {
            Some(client) => clients.push(client)?,
            None => return Err(Error::Line(number)),
        }
        number += 1;
        rest = after;
    }
    Ok(clients)
}

// The client of a line that stands after these.
fn next_client(alloc: Global, clients: &[Client], line: &str) -> Result<Option<Client>, NoMemory>
    ensures next { IfOk result (λ client. client ≡ next_client clients.now line.now) }
    ensures few { IfOk result (λ client. IfSome client (λ _. length clients.now < 256)) }
{
    if clients.len() >= MOST_CLIENTS {
        return Ok(None);
    }
    match client_of(alloc, line)? {
        Some(client) if key_of(clients, client.id.as_str()).is_none() => Ok(Some(client)),
        _ => Ok(None),
    }
}

fn client_of(alloc: Global, line: &str) -> Result<Option<Client>, NoMemory>
    ensures { IfOk result (λ client. client ≡ client_of line.now) }
{
    let Some((id, key)) = line.split_once(' ') else {
        return Ok(None);
    };
    if id.is_empty() || has_tab(id) || key.is_empty() {
        return Ok(None);
    }
    Ok(Some(Client {
        id: String::from_str(alloc, id)?,
        key: KeyName::from_text(alloc, key)?,
    }))
}

fn has_tab(text: &str) -> bool
    ensures { result ≡ list_any is_tab text.now }
{
    text.as_bytes().contains(&b'\t')
}
