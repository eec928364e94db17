//! What an SD-JWT VC says of itself in its payload as signed: its type, its dates and its holder's key.
#![tactic(auto)]

mod facts;

pub use facts::{facts_rule, first_of, holder_of, kind_of, past_of};
