// Reading a document past its CBOR.
ghost use Rattle.std.specs.Prelude.{◌≡◌, None, Some, IfOk, IfErr, map};
ghost use Rattle.cbor_core.specs.Seen.{span_of};
ghost use Rattle.cose_sign1.specs.code.Message.{message};
ghost use Rattle.mdoc_items.specs.Parts.{said_namespace, entries_in};
ghost use Rattle.mdoc_security.specs.SecurityObject.{said_security_object};
ghost use Rattle.mdoc_view.specs.Errors.{IsRefusal, IsInnerRefusal};
ghost use Rattle.mdoc_view.specs.IssuerSigned.{issuer_signed_in};
ghost use Rattle.mdoc_security.specs.MobileSecurityObject.{security_object_in};
ghost use Rattle.mdoc_view.specs.Reading.{content_with, content_by, content_in};
ghost use Rattle.mdoc_view.specs.Refusal.{refusal_of_issuer_signed, rule_of_security_object};
ghost use Rattle.mdoc_view.specs.code.Content.{content_in_memory};

use crate::content::Content;
use crate::error::{Error, cose_error};
use crate::issuer_signed::IssuerSigned;
use crate::item_rules::{CheckedItems, check_items};
use cbor_core::Item;
use cose_sign1::{Payload, Sign1};
use mdoc_items::{Namespace, document_tree};
use mdoc_security::{MobileSecurityObject, NoMemory, holder_of};
use std::alloc::Global;

/// The content of an item that is an `IssuerSigned`.
pub fn read_content<'t>(alloc: Global, item: Item<'t>) -> Result<Content<'t>, Error>
    ensures sound { IfOk result
        (λ _. refusal_of_issuer_signed (issuer_signed_in (span_of item.entry)) ≡ None) }
    ensures read { IfOk result (λ c. content_in (span_of item.entry) ≡ Some (content_in_memory c)) }
    ensures refused { IfErr result
        (λ e. IsRefusal (refusal_of_issuer_signed (issuer_signed_in (span_of item.entry))) e) }
{
    let Some(issued) = IssuerSigned::of(item) else {
        return Err(Error::Refused(2));
    };
    match Sign1::read(alloc, issued.auth, Payload::Inside) {
        Ok(auth) => read_signed(alloc, issued.namespaces, auth),
        Err(error) => Err(cose_error(error)),
    }
}

// The content of a signed message with these namespaces.
fn read_signed<'t>(
    alloc: Global,
    namespaces: Option<Item<'t>>,
    auth: Sign1<'t>,
) -> Result<Content<'t>, Error>
    ensures sound { IfOk result (λ _. rule_of_security_object (entries_in namespaces.entry)
        (security_object_in (message auth.entry).payload) ≡ None) }
    ensures read { IfOk result
        (λ c. content_by (entries_in namespaces.entry) (message auth.entry) ≡ Some (content_in_memory c)) }
    ensures refused { IfErr result (λ e. IsInnerRefusal (rule_of_security_object (entries_in namespaces.entry)
        (security_object_in (message auth.entry).payload)) e) }
{
    let Some(object) = MobileSecurityObject::read(alloc, auth.payload())? else {
        return Err(Error::Refused(4));
    };
    if let Some(rule) = object.rule() {
        return Err(Error::Refused(rule));
    }
    match check_items(alloc, &object, namespaces)? {
        CheckedItems::Read(list) => Ok(build(alloc, auth, &object, &list)?),
        CheckedItems::Broken(rule) => Err(Error::Refused(rule)),
    }
}

// The content of a signed message, its mobile security object and these namespaces.
fn build<'t>(
    alloc: Global,
    auth: Sign1<'t>,
    object: &MobileSecurityObject<'t>,
    namespaces: &[Namespace<'t>],
) -> Result<Content<'t>, NoMemory>
    ensures { IfOk result (λ c. content_in_memory c
        ≡ content_with (message auth.entry) (said_security_object object.now)
        (map said_namespace namespaces.now)) }
{
    let root = document_tree(alloc, namespaces)?;
    let issuer = auth.issuer_name(alloc).or(Err(NoMemory))?;
    let holder = holder_of(alloc, object.map)?;
    Ok(Content {
        auth,
        root,
        kind: object.kind,
        issuer,
        holder,
        first: object.first().unwrap_or(0),
        past: object.past(),
    })
}
