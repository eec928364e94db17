//! Tests of `claim_path`, `dcql_query` and what claim sets show, over their public functions alone.
#![tactic(auto)]

#[cfg(test)]
mod hits;
#[cfg(test)]
mod limits;
#[cfg(test)]
mod paths;
#[cfg(test)]
mod queries;
#[cfg(test)]
mod refusals;
#[cfg(test)]
mod shown;
