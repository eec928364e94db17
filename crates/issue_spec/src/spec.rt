// What an issuer is asked to write.
use mdoc_issue::MdocSpec;
use sdjwt_issue::SdJwtSpec;

/// What an issuer is asked to write, by its format.
#[derive(Drop)]
pub enum IssueSpec {
    /// An SD-JWT VC.
    SdJwt(SdJwtSpec),
    /// A mobile document.
    Mdoc(MdocSpec),
}
