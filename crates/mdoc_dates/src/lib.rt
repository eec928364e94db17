//! Dates with times as an issuer of mobile documents writes them: `tdate` of ISO/IEC 18013-5, section 7.2.1.
#![tactic(auto)]

mod calendar;
pub mod laws;
mod tdate;

pub use tdate::tdate_text;
