// What an issuer is asked to write.
use claim_tree::{Address, KeyName};
use serde_json::{Map, Value};

/// What an issuer is asked to write as an SD-JWT VC.
#[derive(Drop)]
pub struct SdJwtSpec {
    /// The name of the issuer's key.
    pub key_name: KeyName,
    /// The issuer, of which the key's name is written.
    pub issuer: String,
    /// The identifier of the issuer's key, of which its name is written too.
    pub key: String,
    /// The type of the credential.
    pub kind: String,
    /// The holder's key, a JWK, where the credential is bound to one.
    pub holder: Option<Value>,
    /// The second, from 1970-01-01T00:00:00Z, from which on the credential is valid.
    pub from: Option<u64>,
    /// The second up to which it is valid.
    pub until: Option<u64>,
    /// The claims.
    pub claims: Map<String, Value>,
    /// The addresses of the parts of the claims that the holder may leave out.
    pub hide: Vec<Address>,
}
