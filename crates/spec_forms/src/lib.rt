//! What the specs of test credentials of both formats share: why one is refused, and tests of JSON values.
#![tactic(auto)]

mod error;
mod key_names;
mod levels;
mod members;
mod names;

pub use error::{Error, NoMemory};
pub use key_names::after_colon;
pub use levels::{is_deeper, members_are_deeper};
pub use members::member_named;
pub use names::{has_free, is_free};
