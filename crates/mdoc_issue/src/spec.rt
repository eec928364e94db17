// What an issuer is asked to write.
use claim_tree::KeyName;
use serde_json::{Map, Value};

/// What an issuer is asked to write as a mobile document.
#[derive(Drop)]
pub struct MdocSpec {
    /// The name of the issuer's key.
    pub key_name: KeyName,
    /// The identifier of the issuer's key, which its name has in hexadecimal.
    pub key: Vec<u8>,
    /// The type of the document.
    pub kind: String,
    /// The deterministic encoding of the holder's key, a COSE key.
    pub holder: Vec<u8>,
    /// The second, from 1970-01-01T00:00:00Z, from which on the document is valid. It is signed then, too.
    pub from: u64,
    /// The last second at which it is valid.
    pub until: u64,
    /// The namespaces, each an object of elements. In an element's value `{"$bytes": HEX}` stands for a byte
    /// string, and `{"$date": TEXT}` for a date.
    pub namespaces: Map<String, Value>,
}
