//! The mobile security object, which the issuer of a mobile document signs (ISO/IEC 18013-5): the digests of
//! the items, the dates and the device key.
#![tactic(auto)]

mod device_key;
mod error;
mod mobile_security_object;
mod value_digests;

pub use device_key::{holder_of, is_key, key_bytes};
pub use error::NoMemory;
pub use mobile_security_object::MobileSecurityObject;
pub use value_digests::{NamespaceDigests, ValueDigests};
