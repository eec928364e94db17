// How many bytes of a file are taken.

/// How many bytes a credential file may have.
pub const CREDENTIAL_LIMIT: usize = 262_144;
