// A credential as an SD-JWT.
ghost use Rattle.std.specs.Prelude.{◌≡◌, None, Some};
ghost use Rattle.sdjwt_view.specs.Reading.{refusal_of, content_in};
ghost use Rattle.sdjwt_view.specs.code.ContentCode.{IsContentOf, is_content_fact};

use crate::content::Content;
use crate::error::{Error, envelope_error};
use crate::node::SdNode;
use crate::reader::read_content;
use crate::text_parts::split;
use base_forms::HashName;
use claim_tree::{Facts, Format};
use jws_envelope::Jws;
use std::alloc::Global;

/// A credential that was read from an SD-JWT without key binding. It borrows the text that it was read from.
#[derive(Drop)]
pub struct SdCredential<'t> {
    text: &'t str,
    content: Content<'t>,
    ghost sound: { refusal_of text.now ≡ None },
    ghost read: { IsContentOf text.now content } by { is_content_fact text.now content },
}

impl<'t> SdCredential<'t> {
    ghost use Rattle.std.specs.Prelude.{IfOk, IfErr, option_map};
    ghost use Rattle.jws_envelope.specs.Jws.{envelope};
    ghost use Rattle.sdjwt_view.specs.Reading.{credential_in};
    ghost use Rattle.sdjwt_view.specs.Credential.{text_of, content_of, meaning};
    ghost use Rattle.sdjwt_view.specs.Node.{node_tree};
    ghost use Rattle.sdjwt_view.specs.Refusal.{IsRefusal};

    /// Reads a credential. Nothing is judged about its issuer's signature.
    ///
    /// # Errors
    ///
    /// `Envelope` with the rule that the issuer's JWS breaks, where the text ends in `~`; else `Refused` with
    /// the first of the rules that the text breaks: 1 it does not end in `~`; 3 the type of the JWS is not
    /// that of an SD-JWT VC; 4 an unknown hash; 5 more than 1,024 disclosures; 6 to 8 forms of disclosures,
    /// digests and placeholders; 9 to 11 sites of digests; 12 and 13 names; 14 more than 64 levels; 15 to 17
    /// type, dates and holder. `NoMemory` where memory runs out.
    pub fn read(alloc: Global, text: &'t str) -> Result<SdCredential<'t>, Error>
        ensures sound { IfOk result (λ _. refusal_of text.now ≡ None) }
        ensures read { IfOk result (λ c. content_in text.now ≡ Some (content_of c)) }
        ensures credential { IfOk result (λ c. credential_in text.now ≡ Some (meaning c)) }
        ensures same { IfOk result (λ c. text_of c ≡ text.now) }
        ensures refused { IfErr result (λ e. IsRefusal (refusal_of text.now) e) }
    {
        let Some(parts) = split(alloc, text)? else {
            return Err(Error::Refused(1));
        };
        match Jws::read(alloc, parts.jws) {
            Ok(jws) => {
                let content = read_content(alloc, jws, &parts.disclosures)?;
                Ok(SdCredential { text, content })
            }
            Err(error) => Err(envelope_error(error)),
        }
    }

    /// The root of its claim tree: a record in which each disclosure stands where its digest stood, held.
    pub fn root<'a>(&'a self) -> SdNode<'a>
        ensures { node_tree result ≡ (meaning self.now).tree }
    {
        SdNode::new(&self.content.root)
    }

    /// What it says of itself, from the payload as signed.
    pub fn facts<'a>(&'a self) -> Facts<'a>
        ensures format { result.format ≡ (meaning self.now).format }
        ensures kind { result.kind.now ≡ (meaning self.now).kind }
        ensures issuer { result.issuer.now ≡ (meaning self.now).issuer }
        ensures holder { option_map (λ name. name.now) result.holder ≡ (meaning self.now).holder }
        ensures first { result.first ≡ (meaning self.now).first }
        ensures past { result.past ≡ (meaning self.now).past }
    {
        Facts {
            format: Format::SdJwt,
            kind: self.content.kind.as_str(),
            issuer: &self.content.issuer,
            holder: self.content.holder.as_ref(),
            first: self.content.first,
            past: self.content.past,
        }
    }

    /// The text that it was read from. The text breaks no rule, and this credential is what it says.
    pub fn text(&self) -> &'t str
        ensures text { result.now ≡ text_of self.now }
        ensures sound { refusal_of result.now ≡ None }
        ensures read { content_in result.now ≡ Some (content_of self.now) }
        ensures credential { credential_in result.now ≡ Some (meaning self.now) }
    {
        self.text
    }

    /// The hash that its digests are made by.
    pub fn hash(&self) -> HashName
        ensures { result ≡ (content_of self.now).hash }
    {
        self.content.hash
    }

    /// The issuer's signed message.
    pub fn jws(&self) -> &Jws<'t>
        ensures { envelope result.now ≡ (content_of self.now).jws }
    {
        &self.content.jws
    }
}
