//! Tests of `option_list`, over its public functions alone.
#![tactic(auto)]

#[cfg(test)]
mod pages;
#[cfg(test)]
mod tokens;
