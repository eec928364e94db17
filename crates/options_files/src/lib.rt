//! The files from which the options of a wallet for a request are found: the request, the clients that the
//! wallet knows, the wallet file, and the credential files that it names.
//!
//! [`read_files`] reads them, in this order, each within its limit. [`wallet_of`] is the wallet whose slots
//! are those of the credential files.
#![tactic(auto)]

mod clients;
mod content;
mod credentials;
mod files;
mod request;
mod slots;
mod text;

pub use clients::read_clients;
pub use credentials::{CredentialFiles, read_credentials};
pub use files::{FileNames, Files, read_files};
pub use fit_table::{NoMemory, Wallet};
pub use request::read_request;
pub use request_clients::Clients;
pub use slots::wallet_of;
