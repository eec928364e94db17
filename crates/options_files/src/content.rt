// What a credential file holds.
ghost use Rattle.std.specs.Prelude.{◌≡◌, IfOk};
ghost use Rattle.claim_tree.specs.declared.facts.Format.{Format as Form};
ghost use Rattle.options_files.specs.Contents.{content_of};
ghost use Rattle.options_files.specs.code.Meant.{meant};

use crate::text::text_in;
use claim_tree::Format;
use std::alloc::{AllocError, Global};
use wallet_files::document_in;

/// What a credential file holds.
#[derive(Drop)]
pub enum Content {
    /// The text of an SD-JWT, without the line feed at its end.
    Text(String),
    /// The bytes of a mobile document.
    Document(Vec<u8>),
    /// Neither: the file is no UTF-8, or was to be a document and is no base64url.
    Unreadable,
}

/// What a credential file of this format with these bytes holds.
pub fn content_of(alloc: Global, format: Format, bytes: Vec<u8>) -> Result<Content, AllocError>
    ensures { IfOk result (λ content. meant content ≡ content_of format bytes.items) }
{
    match format {
        Format::SdJwt => Ok(text_content(bytes)),
        Format::Mdoc => document_content(alloc, &bytes),
    }
}

fn text_content(bytes: Vec<u8>) -> Content
    ensures { meant result ≡ content_of Form.SdJwt bytes.items }
{
    match text_in(bytes) {
        Some(text) => Content::Text(text),
        None => Content::Unreadable,
    }
}

fn document_content(alloc: Global, bytes: &[u8]) -> Result<Content, AllocError>
    ensures { IfOk result (λ content. meant content ≡ content_of Form.Mdoc bytes.now) }
{
    match document_in(alloc, bytes)? {
        Some(document) => Ok(Content::Document(document)),
        None => Ok(Content::Unreadable),
    }
}
