// Signed messages as they are written, and as they are read again.
use base_forms::{from_hex, to_hex};
use cbor_core::read_one;
use claim_tree::{Alg, SignAlg};
use cose_sign1::{Payload, Sign1, draft_message, write_sign1};
use json_forms::{has_float, read_json, text_at};
use jws_envelope::{Draft, Error, Jws};
use std::alloc::Global;
use std::test::Fail;

// What a text is written from. The payload is in JSON, the signature in hexadecimal.
#[derive(Clone, Copy)]
struct Meant<'a> {
    alg: SignAlg,
    typ: &'a str,
    kid: Option<&'a str>,
    payload: &'a str,
    signature: &'a str,
}

fn is_text(a: &str, b: &str) -> bool {
    a == b
}

// The text, where this is what is to be signed.
fn text_of(alloc: Global, meant: Meant<'_>, input: &str) -> Result<Option<String>, Fail> {
    let Some(payload) = read_json(alloc, meant.payload.as_bytes())? else {
        return Ok(None);
    };
    if has_float(&payload) {
        return Ok(None);
    }
    let signature = from_hex(alloc, meant.signature)?;
    let draft = Draft::new(alloc, meant.alg, meant.typ, meant.kid, &payload)?;
    if !is_text(draft.signing_input(), input) {
        return Ok(None);
    }
    Ok(Some(draft.finish(alloc, &signature)?))
}

// Whether a message says what was meant.
fn is_meant(alloc: Global, jws: &Jws<'_>, meant: Meant<'_>) -> Result<bool, Fail> {
    let Some(payload) = read_json(alloc, meant.payload.as_bytes())? else {
        return Ok(false);
    };
    let signature = to_hex(alloc, jws.signature())?;
    Ok(
        jws.alg() == Alg::Jose(meant.alg.jose())
            && jws.typ() == Some(meant.typ)
            && text_at(jws.header(), "kid") == meant.kid
            && *jws.payload() == payload
            && is_text(signature.as_str(), meant.signature),
    )
}

// Whether the text has this to be signed and this signature, and is read as what was meant.
fn is_written(alloc: Global, meant: Meant<'_>, input: &str, signature: &str) -> Result<bool, Fail> {
    let Some(text) = text_of(alloc, meant, input)? else {
        return Ok(false);
    };
    let wanted = format!(in alloc; "{input}.{signature}")?;
    let jws = Jws::read(alloc, text.as_str())?;
    Ok(
        is_text(text.as_str(), wanted.as_str())
            && is_text(jws.signing_input(), input)
            && is_meant(alloc, &jws, meant)?,
    )
}

// Whether the text has this to be signed, and is refused by its reader since the payload is no object.
fn is_no_message(alloc: Global, meant: Meant<'_>, input: &str) -> Result<bool, Fail> {
    let Some(text) = text_of(alloc, meant, input)? else {
        return Ok(false);
    };
    match Jws::read(alloc, text.as_str()) {
        Ok(_) => Ok(false),
        Err(Error::Refused(rule)) => Ok(rule == 6),
        Err(Error::NoMemory) => Err(Error::NoMemory)?,
    }
}

// Algorithm, type, key, payload and signature, and then what is to be signed, and the signature in
// base64url. The last two are made by Python's `json`, with members sorted by name, and `base64`.
#[test]
fn texts(rt: HostRuntime) -> Result<(), Fail> {
    for (alg, typ, kid, payload, signature, input, last) in [
        (
            SignAlg::Es256,
            "JWT",
            None,
            "{}",
            "",
            "eyJhbGciOiJFUzI1NiIsInR5cCI6IkpXVCJ9.e30",
            "",
        ),
        (
            SignAlg::Es256,
            "dc+sd-jwt",
            Some("k-1"),
            r#"{"iss": "https://pid.example", "exp": 1300819380, "admin": true}"#,
            "000102030405060708090a0b0c0d0e0f101112131415161718191a1b1c1d1e1f",
            "eyJhbGciOiJFUzI1NiIsImtpZCI6ImstMSIsInR5cCI6ImRjK3NkLWp3dCJ9.eyJhZG1pbiI6dHJ1ZSwiZXhwIjoxMzAwODE5MzgwLCJpc3MiOiJodHRwczovL3BpZC5leGFtcGxlIn0",
            "AAECAwQFBgcICQoLDA0ODxAREhMUFRYXGBkaGxwdHh8",
        ),
        (
            SignAlg::EdDsa,
            "kb+jwt",
            Some("a\"\\/é𝄞"),
            r#"{"z":[null,false,-9223372036854775808,18446744073709551615],"a":{"b":[],"a":{}}}"#,
            "ff",
            "eyJhbGciOiJFZERTQSIsImtpZCI6ImFcIlxcL8Op8J2EniIsInR5cCI6ImtiK2p3dCJ9.eyJhIjp7ImEiOnt9LCJiIjpbXX0sInoiOltudWxsLGZhbHNlLC05MjIzMzcyMDM2ODU0Nzc1ODA4LDE4NDQ2NzQ0MDczNzA5NTUxNjE1XX0",
            "_w",
        ),
        (
            SignAlg::Bench256,
            "",
            Some(""),
            r#"{"\u00e9\n\u001f\u007f":"\u20ac\/\t\"\ud834\udd1e"}"#,
            "fbff",
            "eyJhbGciOiJCRU5DSDI1NiIsImtpZCI6IiIsInR5cCI6IiJ9.eyLDqVxuXHUwMDFmfyI6IuKCrC9cdFwi8J2EniJ9",
            "-_8",
        ),
    ] {
        let meant = Meant {
            alg,
            typ,
            kid,
            payload,
            signature,
        };
        assert!(rt; is_written(rt.alloc(), meant, input, last)?);
    }
    Ok(())
}

// Payloads that are no objects.
#[test]
fn texts_that_are_no_messages(rt: HostRuntime) -> Result<(), Fail> {
    for (payload, input) in [
        (
            "[1]",
            "eyJhbGciOiJFUzI1NiIsImtpZCI6ImsiLCJ0eXAiOiJKV1QifQ.WzFd",
        ),
        (
            "null",
            "eyJhbGciOiJFUzI1NiIsImtpZCI6ImsiLCJ0eXAiOiJKV1QifQ.bnVsbA",
        ),
        (
            "\"a\"",
            "eyJhbGciOiJFUzI1NiIsImtpZCI6ImsiLCJ0eXAiOiJKV1QifQ.ImEi",
        ),
    ] {
        let meant = Meant {
            alg: SignAlg::Es256,
            typ: "JWT",
            kid: Some("k"),
            payload,
            signature: "00",
        };
        assert!(rt; is_no_message(rt.alloc(), meant, input)?);
    }
    Ok(())
}

// What a message in CBOR is written from. Payload and signature are in hexadecimal.
#[derive(Clone, Copy)]
struct Signed<'a> {
    alg: SignAlg,
    kid: Option<&'a str>,
    payload: &'a str,
    place: Payload,
    signature: &'a str,
}

// The message in hexadecimal.
fn message_of(alloc: Global, meant: Signed<'_>) -> Result<String, Fail> {
    let payload = from_hex(alloc, meant.payload)?;
    let signature = from_hex(alloc, meant.signature)?;
    let kid = match meant.kid {
        Some(kid) => Some(kid.as_bytes()),
        None => None,
    };
    let inside = match meant.place {
        Payload::Inside => Some(payload.as_slice()),
        Payload::Detached => None,
    };
    let message = write_sign1(alloc, meant.alg, kid, inside, &signature)?;
    Ok(to_hex(alloc, &message)?)
}

// What is to be signed, in hexadecimal.
fn input_of(alloc: Global, meant: Signed<'_>) -> Result<String, Fail> {
    let payload = from_hex(alloc, meant.payload)?;
    let input = draft_message(alloc, meant.alg, &payload)?;
    Ok(to_hex(alloc, &input)?)
}

// Whether the message is read as what was meant, with this to be signed, and an issuer of this name.
fn is_meant_by(
    alloc: Global,
    hex: &str,
    meant: Signed<'_>,
    input: &str,
    name: &str,
) -> Result<bool, Fail> {
    let bytes = from_hex(alloc, hex)?;
    let payload = from_hex(alloc, meant.payload)?;
    let item = read_one(alloc, &bytes, 32)?;
    let message = Sign1::read(alloc, item, meant.place)?;
    let signature = to_hex(alloc, message.signature())?;
    let signed = message.to_be_signed(alloc, &payload)?;
    let signed = to_hex(alloc, &signed)?;
    let issuer = message.issuer_name(alloc)?;
    let is_payload = match message.payload() {
        Some(inside) => meant.place == Payload::Inside && *inside == *payload.as_slice(),
        None => meant.place == Payload::Detached,
    };
    Ok(
        is_payload
            && message.alg() == Alg::Cose(i128::from(meant.alg.cose()))
            && is_text(signature.as_str(), meant.signature)
            && is_text(signed.as_str(), input)
            && is_text(issuer.text(), name),
    )
}

// Whether the message is written as this and has this to be signed, and is read as what was meant.
fn is_message(
    alloc: Global,
    meant: Signed<'_>,
    message: &str,
    input: &str,
    name: &str,
) -> Result<bool, Fail> {
    let written = message_of(alloc, meant)?;
    let drafted = input_of(alloc, meant)?;
    Ok(
        is_text(written.as_str(), message)
            && is_text(drafted.as_str(), input)
            && is_meant_by(alloc, message, meant, input, name)?,
    )
}

// Algorithm, key, payload, place and signature, and then the message, what is to be signed, and the issuer.
// The first message is that of RFC 9052, appendix C.2.1, without its tag. The others are made by a short
// CBOR writer in Python, with heads of no byte, one byte and two bytes of length (RFC 8949, section 3).
#[test]
fn messages(rt: HostRuntime) -> Result<(), Fail> {
    for (alg, kid, payload, place, signature, message, input, name) in [
        (
            SignAlg::Es256,
            Some("11"),
            "546869732069732074686520636f6e74656e742e",
            Payload::Inside,
            "8eb33e4ca31d1c465ab05aac34cc6b23d58fef5c083106c4d25a91aef0b0117e2af9a291aa32e14ab834dc56ed2a223444547e01f11d3b0916e5a4c345cacb36",
            "8443a10126a10442313154546869732069732074686520636f6e74656e742e58408eb33e4ca31d1c465ab05aac34cc6b23d58fef5c083106c4d25a91aef0b0117e2af9a291aa32e14ab834dc56ed2a223444547e01f11d3b0916e5a4c345cacb36",
            "846a5369676e61747572653143a101264054546869732069732074686520636f6e74656e742e",
            "mkid:3131",
        ),
        (
            SignAlg::Es256,
            None,
            "",
            Payload::Inside,
            "",
            "8443a10126a04040",
            "846a5369676e61747572653143a101264040",
            "mkid:",
        ),
        (
            SignAlg::EdDsa,
            Some(""),
            "61",
            Payload::Detached,
            "ff",
            "8443a10127a10440f641ff",
            "846a5369676e61747572653143a10127404161",
            "mkid:",
        ),
        (
            SignAlg::EdDsa,
            None,
            "616161616161616161616161616161616161616161616161",
            Payload::Detached,
            "6262626262626262626262626262626262626262626262",
            "8443a10127a0f6576262626262626262626262626262626262626262626262",
            "846a5369676e61747572653143a10127405818616161616161616161616161616161616161616161616161",
            "mkid:",
        ),
        (
            SignAlg::Bench256,
            Some("k"),
            "6161616161616161616161616161616161616161616161",
            Payload::Inside,
            "626262626262626262626262626262626262626262626262",
            "8447a1013a0001126fa104416b5761616161616161616161616161616161616161616161615818626262626262626262626262626262626262626262626262",
            "846a5369676e61747572653147a1013a0001126f40576161616161616161616161616161616161616161616161",
            "mkid:6b",
        ),
        (
            SignAlg::Bench256,
            Some("kkkkkkkkkkkkkkkkkkkkkkkk"),
            "61616161616161616161616161616161616161616161616161616161616161616161616161616161616161616161616161616161616161616161616161616161616161616161616161616161616161616161616161616161616161616161616161616161616161616161616161616161616161616161616161616161616161616161616161616161616161616161616161616161616161616161616161616161616161616161616161616161616161616161616161616161616161616161616161616161616161616161616161616161616161616161616161616161616161616161616161616161616161616161616161616161616161616161616161616161",
            Payload::Detached,
            "62626262626262626262626262626262626262626262626262626262626262626262626262626262626262626262626262626262626262626262626262626262626262626262626262626262626262626262626262626262626262626262626262626262626262626262626262626262626262626262626262626262626262626262626262626262626262626262626262626262626262626262626262626262626262626262626262626262626262626262626262626262626262626262626262626262626262626262626262626262626262626262626262626262626262626262626262626262626262626262626262626262626262626262626262626262",
            "8447a1013a0001126fa10458186b6b6b6b6b6b6b6b6b6b6b6b6b6b6b6b6b6b6b6b6b6b6b6bf659010062626262626262626262626262626262626262626262626262626262626262626262626262626262626262626262626262626262626262626262626262626262626262626262626262626262626262626262626262626262626262626262626262626262626262626262626262626262626262626262626262626262626262626262626262626262626262626262626262626262626262626262626262626262626262626262626262626262626262626262626262626262626262626262626262626262626262626262626262626262626262626262626262626262626262626262626262626262626262626262626262626262626262626262626262626262",
            "846a5369676e61747572653147a1013a0001126f4059010061616161616161616161616161616161616161616161616161616161616161616161616161616161616161616161616161616161616161616161616161616161616161616161616161616161616161616161616161616161616161616161616161616161616161616161616161616161616161616161616161616161616161616161616161616161616161616161616161616161616161616161616161616161616161616161616161616161616161616161616161616161616161616161616161616161616161616161616161616161616161616161616161616161616161616161616161616161616161616161616161616161616161616161616161616161",
            "mkid:6b6b6b6b6b6b6b6b6b6b6b6b6b6b6b6b6b6b6b6b6b6b6b6b",
        ),
    ] {
        let meant = Signed {
            alg,
            kid,
            payload,
            place,
            signature,
        };
        assert!(rt; is_message(rt.alloc(), meant, message, input, name)?);
    }
    Ok(())
}
