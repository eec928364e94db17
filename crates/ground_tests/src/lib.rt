//! Tests of `outside`, `base_forms`, `json_forms`, `claim_tree`, `cbor_core`, `key_device` and
//! `bench_device`, over their public functions alone.
//!
//! A row of most tables is a call, the text that goes in and the text that comes out (`told.rt`).
#![tactic(auto)]

#[cfg(test)]
mod cbor;
#[cfg(test)]
mod clock;
#[cfg(test)]
mod forms;
#[cfg(test)]
mod json;
#[cfg(test)]
mod keys;
#[cfg(test)]
mod told;
#[cfg(test)]
mod trees;
