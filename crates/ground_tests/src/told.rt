// Calls with a text that goes in and a text that comes out.
use crate::{cbor, clock, forms, json, keys, trees};
use std::alloc::Global;
use std::test::Fail;

/// A call with one text.
#[derive(Clone, Copy)]
pub enum Call {
    WriteUrl64,
    ReadUrl64,
    WriteHex,
    ReadHex,
    ReadDate,
    HashNamed,
    MsoHashNamed,
    Digest,
    LeafName,
    CutLine,
    /// The lesser of two rules, each a number or `-`.
    Lesser,
    /// Whether the texts between the slashes are distinct.
    AreDistinct,
    /// Whether the text is in the set of `b` and `aa`.
    IsInSet,
    IsJson,
    /// What a JSON value has as elements, whether it is a list of strings, and what stands at the name `n`.
    LookInto,
    /// Whether the elements are all strings, all objects, all lists of strings.
    KindsOfElements,
    HasFloat,
    Shape,
    Parts,
    /// The kind of a CBOR item in hexadecimal.
    KindOfItem,
    /// The CBOR encoding of an integer, in hexadecimal.
    WriteInteger,
    /// A secret and a message: the signature by the bench's device, and what is said of it.
    BenchSignature,
    /// Whether a signature by this secret is judged yes where the key is known and not held.
    KnownKey,
    /// Calls of a device in memory.
    MemoryDevice,
    /// Calls of a clock of these moments.
    MemoryClock,
}

/// What comes out.
pub fn told(alloc: Global, call: Call, text: &str) -> Result<String, Fail> {
    match call {
        Call::WriteUrl64 => forms::write_url64(alloc, text),
        Call::ReadUrl64 => forms::read_url64(alloc, text),
        Call::WriteHex => forms::write_hex(alloc, text),
        Call::ReadHex => forms::read_hex(alloc, text),
        Call::ReadDate => forms::date(alloc, text),
        Call::HashNamed => forms::hash_named(alloc, text),
        Call::MsoHashNamed => forms::mso_hash_named(alloc, text),
        Call::Digest => forms::digest(alloc, text),
        Call::LeafName => forms::leaf(alloc, text),
        Call::CutLine => forms::first_line(alloc, text),
        Call::Lesser => forms::lesser_of(alloc, text),
        Call::AreDistinct => forms::distinct(alloc, text),
        Call::IsInSet => forms::in_set(alloc, text),
        Call::IsJson => json::is_text(alloc, text),
        Call::LookInto => json::look_into(alloc, text),
        Call::KindsOfElements => json::kinds(alloc, text),
        Call::HasFloat => json::float(alloc, text),
        Call::Shape => trees::shape(alloc, text),
        Call::Parts => trees::parts(alloc, text),
        Call::KindOfItem => cbor::kind(alloc, text),
        Call::WriteInteger => cbor::integer(alloc, text),
        Call::BenchSignature => keys::bench_signature(alloc, text),
        Call::KnownKey => keys::known(alloc, text),
        Call::MemoryDevice => keys::memory(alloc, text),
        Call::MemoryClock => clock::moments(alloc, text),
    }
}

/// A boolean as a text.
pub fn answer(alloc: Global, is: bool) -> Result<String, Fail> {
    Ok(String::from_str(alloc, if is { "yes" } else { "no" })?)
}

fn is_told(alloc: Global, call: Call, text: &str, wanted: &str) -> Result<bool, Fail> {
    let told = told(alloc, call, text)?;
    Ok(told.as_str() == wanted)
}

/// Whether each row's text comes out.
pub fn are_told(alloc: Global, rows: &[(Call, &str, &str)]) -> Result<bool, Fail> {
    for (call, text, wanted) in rows {
        if !is_told(alloc, *call, text, wanted)? {
            return Ok(false);
        }
    }
    Ok(true)
}
