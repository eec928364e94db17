// The lines that are printed.
use crate::line::{Line, read_line};
use std::alloc::{AllocError, Global};
use verifier_sessions::{Events, NoMemory, Reply, Stand, Table};

/// Why there is no answer.
#[derive(Clone, Copy, Drop)]
pub enum Fault {
    /// A line is no event.
    NoEvent,
    /// Out of memory.
    NoMemory,
}

impl From<NoMemory> for Fault {
    fn from(_error: NoMemory) -> Fault {
        Fault::NoMemory
    }
}

impl From<AllocError> for Fault {
    fn from(_error: AllocError) -> Fault {
        Fault::NoMemory
    }
}

/// A reply for each event of the text.
pub fn answers(alloc: Global, text: &str) -> Result<String, Fault> {
    let mut told = String::new(alloc);
    let mut events = Events::new(alloc);
    for line in text.lines() {
        match read_line(line).ok_or(Fault::NoEvent)? {
            Line::New => {
                add_replies(alloc, &mut told, &events)?;
                events = Events::new(alloc);
            }
            Line::Event(moment, event) => events.add(moment, event)?,
        }
    }
    add_replies(alloc, &mut told, &events)?;
    Ok(told)
}

fn add_replies(alloc: Global, told: &mut String, events: &Events) -> Result<(), Fault> {
    let replies = Table::new(alloc).run(events)?;
    for reply in &replies {
        add_reply(told, reply)?;
    }
    Ok(())
}

fn add_reply(told: &mut String, reply: &Reply) -> Result<(), AllocError> {
    match reply {
        Reply::Opened => write!(told, "opened\n"),
        Reply::Full => write!(told, "full\n"),
        Reply::DrawInUse(text) => {
            let text = text.as_str();
            write!(told, "draw in use {text}\n")
        }
        Reply::Turned => write!(told, "turned\n"),
        Reply::Counted => write!(told, "counted\n"),
        Reply::Stands(stand) => add_stand(told, *stand),
    }
}

fn add_stand(told: &mut String, stand: Stand) -> Result<(), AllocError> {
    match stand {
        Stand::Unknown => write!(told, "unknown\n"),
        Stand::Pending { refusals } => write!(told, "pending {refusals}\n"),
        Stand::Yes { refusals } => write!(told, "yes {refusals}\n"),
        Stand::Closed => write!(told, "closed\n"),
        Stand::Expired { refusals } => write!(told, "expired {refusals}\n"),
    }
}
