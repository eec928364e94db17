// A list of events.
ghost use Rattle.std.specs.Prelude.{◌≡◌, ◌++◌, ◌∷◌, [], OnOk, OnErr};
ghost use Rattle.verifier_sessions.specs.Table.{event_of};
ghost use Rattle.verifier_sessions.specs.code.Owned.{event_in};

use crate::error::NoMemory;
use crate::event::Event;
use std::alloc::Global;
use std::marker::Model;

/// An event that owns its texts.
#[derive(Drop)]
pub enum Owned {
    Open { id: String, nonce: String },
    Post { id: String, yes: bool },
    Look { id: String },
}

/// A moment, in seconds, and an event.
#[derive(Drop)]
pub struct Entry {
    pub moment: u64,
    pub owned: Owned,
}

impl Entry {
    pub fn event(&self) -> Event<'_>
        ensures { event_of result ≡ event_in self.now.owned }
    {
        match &self.owned {
            Owned::Open { id, nonce } => Event::Open {
                id: id.as_str(),
                nonce: nonce.as_str(),
            },
            Owned::Post { id, yes } => Event::Post {
                id: id.as_str(),
                yes: *yes,
            },
            Owned::Look { id } => Event::Look { id: id.as_str() },
        }
    }
}

/// Moments with events, in their order.
#[derive(Drop)]
pub struct Events {
    alloc: Global,
    pub(crate) entries: Vec<Entry>,
}

impl Model for Events {
    ghost use Rattle.std.specs.Prelude.{ℕ, List};
    ghost use Rattle.verifier_sessions.specs.History.{Event as Happening};
    ghost use Rattle.verifier_sessions.specs.code.Owned.{events_in};

    ghost Value = { List (ℕ × Happening) };

    ghost view = { λ e. events_in e.entries.items };
}

impl Events {
    /// No events.
    pub fn new(alloc: Global) -> Events
        ensures { result ≡ [] }
    {
        Events {
            alloc,
            entries: Vec::new(alloc),
        }
    }

    /// Adds an event at the end.
    pub fn add(&mut self, moment: u64, event: Event) -> Result<(), NoMemory>
        ensures added { OnOk result (self.new ≡ self.old ++ (moment, event_of event.entry) ∷ []) }
        ensures out_of_memory { OnErr result (self.new ≡ self.old) }
    {
        let owned = match event {
            Event::Open { id, nonce } => Owned::Open {
                id: String::from_str(self.alloc, id)?,
                nonce: String::from_str(self.alloc, nonce)?,
            },
            Event::Post { id, yes } => Owned::Post {
                id: String::from_str(self.alloc, id)?,
                yes,
            },
            Event::Look { id } => Owned::Look {
                id: String::from_str(self.alloc, id)?,
            },
        };
        self.entries.push(Entry { moment, owned })?;
        Ok(())
    }
}
