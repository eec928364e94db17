//! The sessions of a verifying site: a table of the openings, posts and looks that it has served, proved
//! against the list of these events.
//!
//! A session is pending for 300 seconds from its opening and then expired, unless a post was accepted or
//! eight were refused. It is forgotten 3,600 seconds after its opening. At most 1,024 sessions are kept.
#![tactic(auto)]

mod error;
mod event;
mod events;
mod kept;
mod laws;
mod session;
mod table;

pub use error::NoMemory;
pub use event::{Event, OpenRule, Reply, Stand};
pub use events::Events;
pub use kept::Kept;
pub use laws::{kept_sessions_differ, sessions_stand_apart, turns_once};
pub use table::Table;
