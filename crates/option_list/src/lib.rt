//! The options of a user: the answers that a query admits, a page at a time, and a token for each of them.
//!
//! [`token`] writes an answer as a short text, and [`read_token`] reads it again. The answers themselves are
//! those of `admitted_answers`.
#![tactic(auto)]

mod entries;
mod error;
mod laws;
mod picks;
mod read;
mod write;

pub use admitted_answers::{
    Answers, NoMemory, OptionPage, first, following_is_next, is_admitted, next, order_is_total,
    page,
};
pub use answered_sets::AnsweredSets;
pub use error::Error;
pub use laws::tokens_are_read;
pub use read::read_token;
pub use write::token;
