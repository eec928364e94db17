//! The files of the wallet: the query file, the wallet file with its credential files, and the file of claim
//! trees, and what each comes to against a credential query.
#![tactic(auto)]

mod credential_file;
mod finding;
mod limits;
mod line_stops;
mod matching;
mod query_file;
mod tree_lines;
mod wallet;

pub use credential_file::{document_in, read_credential, without_feed};
pub use finding::Finding;
pub use limits::CREDENTIAL_LIMIT;
pub use line_stops::line_stop;
pub use program_steps::FILE_LIMIT;
pub use query_file::{only, query_by, query_refusal, read_query};
pub use tree_lines::{add_match, matches_in};
pub use wallet::{Entry, read_wallet};
