//! The text that tells a user the options: notes on the credentials of a wallet that are not offered, and
//! the answers of a page with what each of them shows.
//!
//! [`notes`] gives the notes, [`add_page`] adds the answers.
#![tactic(auto)]

mod addresses;
mod answers;
mod error;
mod laws;
mod note_lines;
mod picks;
mod slot_notes;

pub use answers::add_page;
pub use error::NoMemory;
pub use laws::{notes_are_exact, picks_are_told};
pub use note_lines::notes;
pub use slot_notes::{Note, note_of};
