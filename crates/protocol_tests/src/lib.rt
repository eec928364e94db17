//! Tests of the crates of the protocol, over their public functions alone: a crate of their own, since a
//! crate is proved once more with the tests in it.
#![tactic(auto)]

#[cfg(test)]
mod requests;
#[cfg(test)]
mod sessions;
