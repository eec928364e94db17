//! What a call asks of the objects that are passed in, and how a run of it goes.
//!
//! A call is defined by its tree (`specs/Tree.antt`): what it asks, one question after another, each by the
//! answers before it. `Runs` (`specs/Runs.antt`) says what a call did, against a tree: it relates the
//! objects' states before the call, those after it, and how the call ended. What follows of every run is
//! proved once, in [`faults_have_causes`], [`counts_stay`], [`ends_as_expected`], [`asks_in_order`],
//! [`keys_stay`] and [`presents_each`].
#![tactic(auto)]

mod fault;
mod laws;

pub use fault::Fault;
pub use laws::{
    asks_in_order, counts_stay, ends_as_expected, faults_have_causes, keys_stay, presents_each,
};
