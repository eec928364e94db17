//! Tests of `bench_top`, over its public functions alone.
#![tactic(auto)]

#[cfg(test)]
mod commands;
#[cfg(test)]
mod fixtures;
#[cfg(test)]
mod issuing;
#[cfg(test)]
mod told;
