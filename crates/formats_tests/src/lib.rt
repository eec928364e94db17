//! Tests of the crates that read signed messages and credentials, over their public functions alone.
#![tactic(auto)]

#[cfg(test)]
mod cose;
#[cfg(test)]
mod documents;
#[cfg(test)]
mod documents_told;
#[cfg(test)]
mod outlines;
#[cfg(test)]
mod sd_jwt;
#[cfg(test)]
mod signed;
#[cfg(test)]
mod writing;
