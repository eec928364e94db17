//! Tests of `outside`, `program_steps` and `wallet_top`, over their public functions alone.
#![tactic(auto)]

#[cfg(test)]
mod arguments;
#[cfg(test)]
mod listing;
#[cfg(test)]
mod objects;
#[cfg(test)]
mod readers;
#[cfg(test)]
mod reads;
#[cfg(test)]
mod steps;
#[cfg(test)]
mod told;
#[cfg(test)]
mod trying;
