// What is told of documents, as answers that a test looks at.
use base_forms::{from_hex, from_url64};
use claim_tree::{ClaimNode, ClaimView, Format, Shape};
use mdoc_view::{Error, MdCredential, MdNode};
use std::alloc::Global;
use std::test::Fail;

fn is_text(a: &str, b: &str) -> bool {
    a == b
}

/// Whether the bytes are refused with this error.
fn is_refused(alloc: Global, bytes: &[u8], wanted: Error) -> Result<bool, Fail> {
    match MdCredential::read(alloc, bytes) {
        Ok(_) => Ok(false),
        Err(Error::NoMemory) => Err(Error::NoMemory)?,
        Err(error) => Ok(error == wanted),
    }
}

/// Whether the document is refused with this error.
pub fn is_refused_text(alloc: Global, text: &str, wanted: Error) -> Result<bool, Fail> {
    let bytes = from_url64(alloc, text)?;
    is_refused(alloc, &bytes, wanted)
}

/// Whether a document of so many items without a form is refused with this error.
pub fn is_refused_long(
    alloc: Global,
    count: usize,
    head: &str,
    rest: &str,
    wanted: Error,
) -> Result<bool, Fail> {
    let mut bytes = from_hex(alloc, head)?;
    for _ in 0..count {
        bytes.extend_from_slice(&[216, 24, 64])?;
    }
    let rest = from_hex(alloc, rest)?;
    bytes.extend_from_slice(&rest)?;
    is_refused(alloc, &bytes, wanted)
}

/// Whether the document with one other byte is refused with this error.
pub fn is_refused_altered(
    alloc: Global,
    text: &str,
    at: usize,
    byte: u8,
    wanted: Error,
) -> Result<bool, Fail> {
    let mut bytes = from_url64(alloc, text)?;
    match bytes.get_mut(at) {
        Some(place) => *place = byte,
        None => return Ok(false),
    }
    is_refused(alloc, &bytes, wanted)
}

fn has_holder(credential: &MdCredential, wanted: &str) -> bool {
    match credential.facts().holder {
        Some(holder) => is_text(holder.text(), wanted),
        None => false,
    }
}

fn are_licence_facts(credential: &MdCredential) -> bool {
    let facts = credential.facts();
    facts.format == Format::Mdoc
        && is_text(facts.kind, "org.iso.18013.5.1.mDL")
        && is_text(facts.issuer.text(), "mkid:6d31")
        && facts.first == 1700000000
        && facts.past == Some(1800000001)
}

/// Whether the facts are those of the licence, and bytes and signature as long as its own.
pub fn has_facts(alloc: Global, text: &str) -> Result<bool, Fail> {
    let bytes = from_url64(alloc, text)?;
    let credential = MdCredential::read(alloc, &bytes)?;
    Ok(
        are_licence_facts(&credential)
            && has_holder(&credential, "cose:a401022001214101224102")
            && credential.bytes().len() == 841
            && credential.issuer_auth().signature().len() == 32,
    )
}

// Whether the text of an element is this one.
fn says(elements: MdNode, name: &str, wanted: &str) -> bool {
    match elements.member(name) {
        Some(node) => node.text() == Some(wanted),
        None => false,
    }
}

fn has_shape(elements: MdNode, name: &str, shape: Shape, len: usize) -> bool {
    match elements.member(name) {
        Some(node) => node.shape() == shape && node.len() == len,
        None => false,
    }
}

fn are_licence_elements(root: MdNode) -> bool {
    match root.member("org.iso.18013.5.1") {
        Some(elements) => {
            elements.len() == 4
                && says(elements, "birth_date", "1990-01-01")
                && says(elements, "given_name", "Erika")
                && has_shape(elements, "portrait", Shape::Bytes, 0)
        }
        None => false,
    }
}

/// Whether the one namespace has the elements of the licence.
pub fn has_elements(alloc: Global, text: &str) -> Result<bool, Fail> {
    let bytes = from_url64(alloc, text)?;
    let credential = MdCredential::read(alloc, &bytes)?;
    Ok(credential.root().len() == 1 && are_licence_elements(credential.root()))
}

/// Whether the issuer's signature over no payload would be over these bytes.
pub fn signs(alloc: Global, text: &str, wanted: &str) -> Result<bool, Fail> {
    let bytes = from_url64(alloc, text)?;
    let credential = MdCredential::read(alloc, &bytes)?;
    let signed = credential.issuer_auth().to_be_signed(alloc, b"")?;
    let wanted = from_hex(alloc, wanted)?;
    Ok(signed.as_slice() == wanted.as_slice())
}

/// Whether the document has this holder and so many namespaces.
pub fn is_told(alloc: Global, text: &str, holder: &str, namespaces: usize) -> Result<bool, Fail> {
    let bytes = from_url64(alloc, text)?;
    let credential = MdCredential::read(alloc, &bytes)?;
    Ok(has_holder(&credential, holder) && credential.root().len() == namespaces)
}

fn are_kinds(elements: MdNode) -> bool {
    for (name, shape, len) in [
        ("bytes", Shape::Bytes, 0),
        ("float", Shape::Other, 0),
        ("list", Shape::List, 2),
        ("map", Shape::Record, 2),
        ("null", Shape::Null, 0),
        ("numbers", Shape::Other, 0),
        ("tag", Shape::Text, 0),
        ("text", Shape::Text, 0),
        ("truth", Shape::Truth, 0),
        ("whole", Shape::Whole, 0),
    ] {
        if !has_shape(elements, name, shape, len) {
            return false;
        }
    }
    true
}

/// Whether the namespaces are one of one element, and one of an element of each kind.
pub fn has_kinds(alloc: Global, text: &str) -> Result<bool, Fail> {
    let bytes = from_url64(alloc, text)?;
    let credential = MdCredential::read(alloc, &bytes)?;
    let root = credential.root();
    if root.len() != 2 {
        return Ok(false);
    }
    match root.member("n") {
        Some(elements) => {
            Ok(root.at(0).len() == 1 && root.at(1).len() == 10 && are_kinds(elements))
        }
        None => Ok(false),
    }
}

fn are_values(elements: MdNode) -> bool {
    let Some(whole) = elements.member("whole") else {
        return false;
    };
    let Some(list) = elements.member("list") else {
        return false;
    };
    whole.whole() == Some(-5) && !list.loose() && is_map(elements)
}

// Whether the map is of a record and 1.
fn is_map(elements: MdNode) -> bool {
    let Some(map) = elements.member("map") else {
        return false;
    };
    map.len() == 2 && map.at(0).shape() == Shape::Record && map.at(1).whole() == Some(1)
}

/// Whether the elements have the values of the document of each kind.
pub fn has_values(alloc: Global, text: &str) -> Result<bool, Fail> {
    let bytes = from_url64(alloc, text)?;
    let credential = MdCredential::read(alloc, &bytes)?;
    match credential.root().member("n") {
        Some(elements) => Ok(are_values(elements)),
        None => Ok(false),
    }
}

fn is_nested(node: MdNode, levels: usize) -> bool {
    let mut node = node;
    for _ in 0..levels {
        if node.len() != 1 {
            return false;
        }
        node = node.at(0);
    }
    node.whole() == Some(1)
}

/// Whether the element `a` is 1 within so many lists.
pub fn has_depth(alloc: Global, text: &str, levels: usize) -> Result<bool, Fail> {
    let bytes = from_url64(alloc, text)?;
    let credential = MdCredential::read(alloc, &bytes)?;
    let Some(elements) = credential.root().member("n") else {
        return Ok(false);
    };
    match elements.member("a") {
        Some(node) => Ok(is_nested(node, levels)),
        None => Ok(false),
    }
}
