//! What the programs of this repository share: the reading of a file within its limit, the refusals
//! that are printed, and the end of a run.
//!
//! A command is defined by its tree of questions (crate `runs`). `Ran` (`specs/Ends.antt`) says of a whole
//! run that the tree of the words was run and that its end was written. What follows of it is proved once, in
//! [`statuses_have_causes`], [`usage_is_no_command`], [`ends_complete`], [`asks_in_order`],
//! [`counts_stay`] and [`keys_stay`].
#![tactic(auto)]

mod files;
mod laws;
mod printing;
mod refusals;
mod replies;
mod reply;
mod stop;

pub use files::{FILE_LIMIT, read_file, text_of};
pub use laws::{
    asks_in_order, counts_stay, ends_complete, keys_stay, statuses_have_causes, usage_is_no_command,
};
pub use printing::{close, finish};
pub use refusals::{file_refused, query_refused, too_long};
pub use replies::{reply_of, reply_with_last};
pub use reply::Reply;
pub use stop::Stop;
