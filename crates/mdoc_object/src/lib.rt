//! What the issuer of a mobile document writes beside its signature: issuer-signed items, and the mobile
//! security object with their digests (ISO/IEC 18013-5, sections 8.3.2.1.2.2 and 9.1.2.4).
#![tactic(auto)]

mod items;
mod namespaces;
mod security_object;

pub use cbor_core::NoMemory;
pub use items::{WrittenItem, WrittenNamespace, write_namespaces};
pub use namespaces::{namespaces_bytes, value_digests};
pub use security_object::{ObjectParts, issuer_signed, payload};
