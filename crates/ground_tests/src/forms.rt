// Text forms, digests, dates, lines and rules.
use crate::told::{Call, answer, are_told};
use base_forms::{
    DateRule, Error, HashName, are_distinct, cut_line, from_hex, from_url64, leaf_name, lesser,
    read_tdate, set_of, to_hex, to_url64,
};
use std::alloc::Global;
use std::test::Fail;

// The bytes as a text, or the rule that the text breaks.
fn read(alloc: Global, read: Result<Vec<u8>, Error>) -> Result<String, Fail> {
    match read {
        Ok(bytes) => Ok(String::from_utf8(bytes)?),
        Err(Error::Refused(rule)) => Ok(format!(in alloc; "refused {rule}")?),
        Err(error) => Err(error)?,
    }
}

pub fn write_url64(alloc: Global, text: &str) -> Result<String, Fail> {
    Ok(to_url64(alloc, text.as_bytes())?)
}

pub fn write_hex(alloc: Global, text: &str) -> Result<String, Fail> {
    Ok(to_hex(alloc, text.as_bytes())?)
}

pub fn leaf(alloc: Global, text: &str) -> Result<String, Fail> {
    Ok(leaf_name(alloc, text.as_bytes())?)
}

pub fn read_url64(alloc: Global, text: &str) -> Result<String, Fail> {
    read(alloc, from_url64(alloc, text))
}

pub fn read_hex(alloc: Global, text: &str) -> Result<String, Fail> {
    read(alloc, from_hex(alloc, text))
}

pub fn date(alloc: Global, text: &str) -> Result<String, Fail> {
    match read_tdate(text) {
        Ok(seconds) => Ok(format!(in alloc; "{seconds}")?),
        Err(DateRule::Form) => Ok(String::from_str(alloc, "form")?),
        Err(DateRule::NoSuch) => Ok(String::from_str(alloc, "no such")?),
    }
}

pub fn hash_named(alloc: Global, text: &str) -> Result<String, Fail> {
    answer(alloc, HashName::from_text(text) == Some(HashName::Sha256))
}

pub fn mso_hash_named(alloc: Global, text: &str) -> Result<String, Fail> {
    answer(alloc, HashName::from_mso(text) == Some(HashName::Sha256))
}

// The base64url of the digest.
pub fn digest(alloc: Global, text: &str) -> Result<String, Fail> {
    let digest = HashName::Sha256.digest(text.as_bytes());
    Ok(to_url64(alloc, digest.bytes())?)
}

// The first line and the rest, with a bar between.
pub fn first_line(alloc: Global, text: &str) -> Result<String, Fail> {
    if text.is_empty() {
        return Ok(String::new(alloc));
    }
    let (line, rest) = cut_line(text);
    Ok(format!(in alloc; "{line}|{rest}")?)
}

fn rule(text: &str) -> Option<u8> {
    text.parse::<u8>().ok()
}

pub fn lesser_of(alloc: Global, text: &str) -> Result<String, Fail> {
    let (first, second) = text.split_once(' ').ok_or("no blank")?;
    match lesser(rule(first), rule(second)) {
        Some(rule) => Ok(format!(in alloc; "{rule}")?),
        None => Ok(String::from_str(alloc, "-")?),
    }
}

pub fn distinct(alloc: Global, text: &str) -> Result<String, Fail> {
    let mut texts = Vec::new(alloc);
    for text in text.split('/') {
        texts.push(text)?;
    }
    answer(alloc, are_distinct(alloc, &texts)?)
}

pub fn in_set(alloc: Global, text: &str) -> Result<String, Fail> {
    let set = set_of(alloc, &["b", "aa", "b"])?;
    answer(alloc, set.contains_key(text))
}

// The test vectors of RFC 4648, section 10, and bytes whose base64url has both its own characters; then texts
// that break one rule each, and two that break more, of which the first is answered.
#[test]
fn base64url(rt: HostRuntime) -> Result<(), Fail> {
    let rows = [
        (Call::WriteUrl64, "", ""),
        (Call::WriteUrl64, "f", "Zg"),
        (Call::WriteUrl64, "fo", "Zm8"),
        (Call::WriteUrl64, "foo", "Zm9v"),
        (Call::WriteUrl64, "foob", "Zm9vYg"),
        (Call::WriteUrl64, "~~~???", "fn5-Pz8_"),
        (Call::ReadUrl64, "", ""),
        (Call::ReadUrl64, "Zg", "f"),
        (Call::ReadUrl64, "Zm8", "fo"),
        (Call::ReadUrl64, "Zm9v", "foo"),
        (Call::ReadUrl64, "Zm9vYg", "foob"),
        (Call::ReadUrl64, "fn5-Pz8_", "~~~???"),
        (Call::ReadUrl64, "Zg==", "refused 1"),
        (Call::ReadUrl64, "+_8A", "refused 1"),
        (Call::ReadUrl64, "-/8A", "refused 1"),
        (Call::ReadUrl64, "Zm9 ", "refused 1"),
        (Call::ReadUrl64, "Zm9v\n", "refused 1"),
        (Call::ReadUrl64, "é", "refused 1"),
        (Call::ReadUrl64, "A", "refused 2"),
        (Call::ReadUrl64, "Zm9vA", "refused 2"),
        (Call::ReadUrl64, "Zh", "refused 3"),
        (Call::ReadUrl64, "Zv", "refused 3"),
        (Call::ReadUrl64, "Zm9", "refused 3"),
        (Call::ReadUrl64, "Zm9vZm9", "refused 3"),
        (Call::ReadUrl64, "=", "refused 1"),
        (Call::ReadUrl64, "Z=", "refused 1"),
        (Call::WriteHex, "", ""),
        (Call::WriteHex, "\t", "09"),
        (Call::WriteHex, "foo", "666f6f"),
        (Call::WriteHex, "~~~???", "7e7e7e3f3f3f"),
        (Call::WriteHex, "é", "c3a9"),
        (Call::ReadHex, "", ""),
        (Call::ReadHex, "09", "\t"),
        (Call::ReadHex, "666f6f", "foo"),
        (Call::ReadHex, "7e7e7e3f3f3f", "~~~???"),
        (Call::ReadHex, "c3a9", "é"),
        (Call::ReadHex, "f", "refused 1"),
        (Call::ReadHex, "666", "refused 1"),
        (Call::ReadHex, "6F", "refused 1"),
        (Call::ReadHex, "fg", "refused 1"),
        (Call::ReadHex, "-1", "refused 1"),
        (Call::ReadHex, "é", "refused 1"),
    ];
    assert!(rt; are_told(rt.alloc(), &rows)?);
    Ok(())
}

// Disclosures and their digests of RFC 9901, and the digest of `abc` in FIPS 180-4.
#[test]
fn digests(rt: HostRuntime) -> Result<(), Fail> {
    let rows = [
        (
            Call::Digest,
            "WyJfMjZiYzRMVC1hYzZxMktJNmNCVzVlcyIsICJmYW1pbHlfbmFtZSIsICJNw7ZiaXVzIl0",
            "X9yH0Ajrdm1Oij4tWso9UzzKJvPoDxwmuEcO3XAdRC0",
        ),
        (
            Call::Digest,
            "WyJsa2x4RjVqTVlsR1RQVW92TU5JdkNBIiwgIkZSIl0",
            "w0I8EKcdCtUPkGCNUrfwVp2xEgNjtoIDlOxc9-PlOhs",
        ),
        (
            Call::LeafName,
            "abc",
            "x5:ba7816bf8f01cfea414140de5dae2223b00361a396177a9cb410ff61f20015ad",
        ),
        (Call::HashNamed, "sha-256", "yes"),
        (Call::HashNamed, "", "no"),
        (Call::HashNamed, "SHA-256", "no"),
        (Call::HashNamed, "sha-384", "no"),
        (Call::HashNamed, "sha-256-128", "no"),
        (Call::HashNamed, "sha-25", "no"),
        (Call::MsoHashNamed, "SHA-256", "yes"),
        (Call::MsoHashNamed, "", "no"),
        (Call::MsoHashNamed, "sha-256", "no"),
        (Call::MsoHashNamed, "SHA-384", "no"),
        (Call::MsoHashNamed, "SHA-2561", "no"),
        (Call::MsoHashNamed, "SHA-25", "no"),
    ];
    assert!(rt; are_told(rt.alloc(), &rows)?);
    Ok(())
}

// The last second is by the calendar's own count, 2,932,897 days of 86,400 seconds less one.
#[test]
fn dates(rt: HostRuntime) -> Result<(), Fail> {
    let rows = [
        (Call::ReadDate, "2025-06-15T15:06:40Z", "1750000000"),
        (Call::ReadDate, "1970-01-01T00:00:00Z", "0"),
        (Call::ReadDate, "2000-02-29T00:00:00Z", "951782400"),
        (Call::ReadDate, "2024-02-29T23:59:59Z", "1709251199"),
        (Call::ReadDate, "9999-12-31T23:59:59Z", "253402300799"),
        (Call::ReadDate, "", "form"),
        (Call::ReadDate, "2025-06-15", "form"),
        (Call::ReadDate, "2025-06-15T15:06:40", "form"),
        (Call::ReadDate, "2025-06-15T15:06:40ZZ", "form"),
        (Call::ReadDate, "2025-06-15 15:06:40Z", "form"),
        (Call::ReadDate, "2025-06-15t15:06:40Z", "form"),
        (Call::ReadDate, "2025-06-15T15:06:40z", "form"),
        (Call::ReadDate, "2025/06/15T15:06:40Z", "form"),
        (Call::ReadDate, "2025-06-15T15.06.40Z", "form"),
        (Call::ReadDate, "2025-06-15T15:06:40.0Z", "form"),
        (Call::ReadDate, "2025-06-15T15:06:40+00:00", "form"),
        (Call::ReadDate, "2025-06-15T15:06:4٣Z", "form"),
        (Call::ReadDate, "1969-12-31T23:59:59Z", "no such"),
        (Call::ReadDate, "2025-00-10T00:00:00Z", "no such"),
        (Call::ReadDate, "2025-13-10T00:00:00Z", "no such"),
        (Call::ReadDate, "2025-06-00T00:00:00Z", "no such"),
        (Call::ReadDate, "2025-06-31T00:00:00Z", "no such"),
        (Call::ReadDate, "2025-02-29T00:00:00Z", "no such"),
        (Call::ReadDate, "2100-02-29T00:00:00Z", "no such"),
        (Call::ReadDate, "2025-06-15T24:00:00Z", "no such"),
        (Call::ReadDate, "2025-06-15T23:60:00Z", "no such"),
        (Call::ReadDate, "2016-12-31T23:59:60Z", "no such"),
    ];
    assert!(rt; are_told(rt.alloc(), &rows)?);
    Ok(())
}

// A text is another one where a byte is more, less or in the other case.
#[test]
fn lines_rules_and_texts(rt: HostRuntime) -> Result<(), Fail> {
    let rows = [
        (Call::CutLine, "a\nb\nc", "a|b\nc"),
        (Call::CutLine, "a\n", "a|"),
        (Call::CutLine, "a", "a|"),
        (Call::CutLine, "\n", "|"),
        (Call::CutLine, "\n\n", "|\n"),
        (Call::CutLine, "a\r\nb", "a\r|b"),
        (Call::Lesser, "- -", "-"),
        (Call::Lesser, "- 7", "7"),
        (Call::Lesser, "7 -", "7"),
        (Call::Lesser, "2 10", "2"),
        (Call::Lesser, "10 2", "2"),
        (Call::Lesser, "3 3", "3"),
        (Call::Lesser, "255 -", "255"),
        (Call::AreDistinct, "a/b/c", "yes"),
        (Call::AreDistinct, "/a/aa", "yes"),
        (Call::AreDistinct, "a/A/á", "yes"),
        (Call::AreDistinct, "a/a/b", "no"),
        (Call::AreDistinct, "a/b/a", "no"),
        (Call::AreDistinct, "b/a/a", "no"),
        (Call::AreDistinct, "/a/", "no"),
        (Call::IsInSet, "aa", "yes"),
        (Call::IsInSet, "b", "yes"),
        (Call::IsInSet, "a", "no"),
        (Call::IsInSet, "aab", "no"),
        (Call::IsInSet, "", "no"),
    ];
    assert!(rt; are_told(rt.alloc(), &rows)?);
    assert!(rt; are_distinct(rt.alloc(), &[])?);
    Ok(())
}
