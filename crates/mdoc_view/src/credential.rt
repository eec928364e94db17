// A credential as a mobile document.
ghost use Rattle.std.specs.Prelude.{◌≡◌, None, Some};
ghost use Rattle.mdoc_view.specs.Reading.{content_in};
ghost use Rattle.mdoc_view.specs.Refusal.{refusal_of};
ghost use Rattle.mdoc_view.specs.code.Content.{content_in_memory};
ghost use Rattle.mdoc_view.specs.code.ContentCode.{content_fact};

use crate::content::Content;
use crate::error::{Error, cbor_error};
use crate::node::MdNode;
use crate::reader::read_content;
use cbor_core::read_one;
use claim_tree::{Facts, Format};
use cose_sign1::Sign1;
use mdoc_items::LEVELS;
use std::alloc::Global;

/// A credential that was read from the `IssuerSigned` of a mobile document. It borrows the bytes that it was
/// read from.
#[derive(Drop)]
pub struct MdCredential<'t> {
    bytes: &'t [u8],
    content: Content<'t>,
    ghost sound: { refusal_of bytes.now ≡ None },
    ghost read: { content_in bytes.now ≡ Some (content_in_memory content) } by { content_fact
        (content_in bytes.now) (Some (content_in_memory content)) },
}

impl<'t> MdCredential<'t> {
    ghost use Rattle.std.specs.Prelude.{IfOk, IfErr, option_map};
    ghost use Rattle.cose_sign1.specs.code.Message.{message};
    ghost use Rattle.mdoc_view.specs.Credential.{source_of, content_of, meaning};
    ghost use Rattle.mdoc_view.specs.Errors.{IsRefusal};
    ghost use Rattle.mdoc_view.specs.Node.{node_tree};
    ghost use Rattle.mdoc_view.specs.Reading.{credential_in};

    /// Reads a credential. The issuer's signature is not verified.
    ///
    /// # Errors
    ///
    /// `Cbor` with the rule that the bytes break as one item of CBOR of at most 32 levels; `Cose` with the
    /// rule that `issuerAuth` breaks as a signed message with its payload inside, where the bytes keep rule
    /// 2; else `Refused` with the first of the rules that they break: 2 the bytes are a map with
    /// `issuerAuth`, and `nameSpaces`, if it is there, maps texts to lists of embedded items; 4 the payload
    /// has the form of a mobile security object; 5 its version is `1.0`; 6 its hash is known; 7 its dates can
    /// be read; 8 it has a device key of the form; 9 there are at most 1,024 issuer-signed items; 10 each has
    /// the form; 11 no element stands twice in a namespace; 12 each item has a digest; 13 each digest is that
    /// of its item. `NoMemory` when out of memory.
    pub fn read(alloc: Global, bytes: &'t [u8]) -> Result<MdCredential<'t>, Error>
        ensures sound { IfOk result (λ _. refusal_of bytes.now ≡ None) }
        ensures read { IfOk result (λ c. content_in bytes.now ≡ Some (content_of c)) }
        ensures credential { IfOk result (λ c. credential_in bytes.now ≡ Some (meaning c)) }
        ensures same { IfOk result (λ c. source_of c ≡ bytes.now) }
        ensures refused { IfErr result (λ e. IsRefusal (refusal_of bytes.now) e) }
    {
        match read_one(alloc, bytes, LEVELS) {
            Ok(item) => {
                let content = read_content(alloc, item)?;
                Ok(MdCredential { bytes, content })
            }
            Err(error) => Err(cbor_error(error)),
        }
    }

    /// The root of its claim tree: a record of the namespaces, each a record of its elements, all of them
    /// held.
    pub fn root<'a>(&'a self) -> MdNode<'a>
        ensures { node_tree result ≡ (meaning self.now).tree }
    {
        MdNode::new(&self.content.root)
    }

    /// What it says of itself, as its issuer signed it. There is always a holder: a document without a device
    /// key is refused.
    pub fn facts<'a>(&'a self) -> Facts<'a>
        ensures kind { result.kind.now ≡ (meaning self.now).kind }
        ensures issuer { result.issuer.now ≡ (meaning self.now).issuer }
        ensures holder { option_map (λ name. name.now) result.holder ≡ (meaning self.now).holder }
        ensures first { result.first ≡ (meaning self.now).first }
        ensures past { result.past ≡ (meaning self.now).past }
        ensures format { result.format ≡ (meaning self.now).format }
    {
        Facts {
            format: Format::Mdoc,
            kind: self.content.kind,
            issuer: &self.content.issuer,
            holder: self.content.holder.as_ref(),
            first: self.content.first,
            past: self.content.past,
        }
    }

    /// The issuer's signed message.
    pub fn issuer_auth(&self) -> &Sign1<'t>
        ensures { message result.now ≡ (content_of self.now).auth }
    {
        &self.content.auth
    }

    /// The bytes that it was read from. They break no rule, and this credential is what they say.
    pub fn bytes(&self) -> &'t [u8]
        ensures bytes { result.now ≡ source_of self.now }
        ensures sound { refusal_of result.now ≡ None }
        ensures read { content_in result.now ≡ Some (content_of self.now) }
        ensures credential { credential_in result.now ≡ Some (meaning self.now) }
    {
        self.bytes
    }
}
