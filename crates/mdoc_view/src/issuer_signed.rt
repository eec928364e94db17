// The two parts of a document: the issuer-signed items of each namespace, and the issuer's signed message.
ghost use Rattle.std.specs.Prelude.{◌≡◌, option_map};
ghost use Rattle.cbor_core.specs.Seen.{span_of};
ghost use Rattle.mdoc_view.specs.IssuerSigned.{issuer_signed_in, are_embedded, is_namespace, are_namespaces};
ghost use Rattle.mdoc_view.specs.code.Parts.{said_issuer_signed};

use cbor_core::Item;
use mdoc_items::{embedded, is_list, is_map};

/// An `IssuerSigned`. It borrows the bytes that it was read from.
#[derive(Clone, Copy)]
pub struct IssuerSigned<'t> {
    /// The map of namespaces, if there is one.
    pub namespaces: Option<Item<'t>>,
    pub auth: Item<'t>,
}

impl<'t> IssuerSigned<'t> {
    /// The parts of an item, or `None` where it is not of the form.
    pub fn of(item: Item<'t>) -> Option<IssuerSigned<'t>>
        ensures { option_map said_issuer_signed result ≡ issuer_signed_in (span_of item.entry) }
    {
        let auth = item.find("issuerAuth")?;
        match item.find("nameSpaces") {
            Some(namespaces) => {
                if are_namespaces(namespaces) {
                    Some(IssuerSigned {
                        namespaces: Some(namespaces),
                        auth,
                    })
                } else {
                    None
                }
            }
            None => Some(IssuerSigned {
                namespaces: None,
                auth,
            }),
        }
    }
}

// Whether an item is a map from texts to lists of embedded items.
fn are_namespaces(item: Item) -> bool
    ensures { result ≡ are_namespaces (span_of item.entry) }
{
    is_map(item) && item.entries().all(|(name, list)| is_namespace(name, list))
}

fn is_namespace(name: Item, list: Item) -> bool
    ensures { result ≡ is_namespace (span_of name.entry, span_of list.entry) }
{
    name.text().is_some() && are_embedded(list)
}

fn are_embedded(list: Item) -> bool
    ensures { result ≡ are_embedded (span_of list.entry) }
{
    is_list(list) && list.items().all(|item| embedded(item).is_some())
}
