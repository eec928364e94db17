// Whole signed messages, as hexadecimal.
use base_forms::{from_hex, to_hex};
use cbor_core::read_one;
use claim_tree::Alg;
use cose_sign1::{Error, Payload, Sign1};
use std::alloc::Global;
use std::test::Fail;

fn is_text(a: &str, b: &str) -> bool {
    a == b
}

// Whether a message is refused with this rule.
fn is_refused(alloc: Global, hex: &str, expected: Payload, wanted: u8) -> Result<bool, Fail> {
    let bytes = from_hex(alloc, hex)?;
    let item = read_one(alloc, &bytes, 32)?;
    match Sign1::read(alloc, item, expected) {
        Ok(_) => Ok(false),
        Err(Error::Refused(rule)) => Ok(rule == wanted),
        Err(error) => Err(error)?,
    }
}

// Whether a message is by ECDSA with SHA-256, and its key has this name.
fn is_named(alloc: Global, hex: &str, expected: Payload, name: &str) -> Result<bool, Fail> {
    let bytes = from_hex(alloc, hex)?;
    let item = read_one(alloc, &bytes, 32)?;
    let message = Sign1::read(alloc, item, expected)?;
    let issuer = message.issuer_name(alloc)?;
    Ok(message.alg() == Alg::Cose(-7) && is_text(issuer.text(), name))
}

// Whether a message has a payload of this text, a signature of 64 bytes, and these bytes to be signed.
fn is_signed(alloc: Global, hex: &str, payload: &[u8], signed: &str) -> Result<bool, Fail> {
    let bytes = from_hex(alloc, hex)?;
    let item = read_one(alloc, &bytes, 32)?;
    let message = Sign1::read(alloc, item, Payload::Inside)?;
    let written = message.to_be_signed(alloc, payload)?;
    let written = to_hex(alloc, &written)?;
    Ok(
        message.payload() == Some(payload)
            && message.signature().len() == 64
            && is_text(written.as_str(), signed),
    )
}

// A message for each rule, and messages that break two rules, of which the lesser is answered.
#[test]
fn refusals(rt: HostRuntime) -> Result<(), Fail> {
    let alloc = rt.alloc();
    for (hex, expected, rule) in [
        ("00", Payload::Inside, 1),
        ("d38443a10126a0416140", Payload::Inside, 1),
        ("d2d28443a10126a0416140", Payload::Inside, 1),
        ("8343a10126a04161", Payload::Inside, 1),
        ("8543a10126a041614040", Payload::Inside, 1),
        ("84a0a0416140", Payload::Inside, 1),
        ("8443a1012640416140", Payload::Inside, 1),
        ("8443a10126a0616140", Payload::Inside, 1),
        ("8443a10126a04161f6", Payload::Inside, 1),
        ("844101a0416140", Payload::Inside, 2),
        ("8444a1012600a0416140", Payload::Inside, 2),
        ("8445a201260126a0416140", Payload::Inside, 2),
        (
            // 33 levels.
            "845824a20126098181818181818181818181818181818181818181818181818181818181818180a0416140",
            Payload::Inside,
            2,
        ),
        ("8440a0416140", Payload::Inside, 3),
        ("8444a1016161a0416140", Payload::Inside, 3),
        ("8440a10126416140", Payload::Inside, 3),
        ("8446a20126028101a0416140", Payload::Inside, 4),
        ("8443a10126a1028101416140", Payload::Inside, 4),
        ("8443a10126a1028101f640", Payload::Inside, 4),
        ("8443a10126a0f640", Payload::Inside, 5),
        ("8443a10126a0416140", Payload::Detached, 5),
    ] {
        assert!(rt; is_refused(alloc, hex, expected, rule)?);
    }
    Ok(())
}

// The names of issuers, from the unprotected headers first. The certificate is `abc`, whose digest is that of
// FIPS 180-4.
#[test]
fn issuers(rt: HostRuntime) -> Result<(), Fail> {
    let alloc = rt.alloc();
    let certified = "x5:ba7816bf8f01cfea414140de5dae2223b00361a396177a9cb410ff61f20015ad";
    for (hex, expected, name) in [
        // No header; a key's identifier, unprotected, protected, in both, and as a text.
        ("8443a10126a0416140", Payload::Inside, "mkid:"),
        ("d28443a10126a0f640", Payload::Detached, "mkid:"),
        ("8443a10126a1044131416140", Payload::Inside, "mkid:31"),
        ("8446a20126044132a0416140", Payload::Inside, "mkid:32"),
        ("8446a20126044132a1044131416140", Payload::Inside, "mkid:31"),
        ("8446a20126044132a1046131416140", Payload::Inside, "mkid:32"),
        // A certificate, a chain of one and of two, protected, and in both.
        ("8443a10126a1182143616263416140", Payload::Inside, certified),
        (
            "8443a10126a118218143616263416140",
            Payload::Inside,
            certified,
        ),
        (
            "8443a10126a1182182436162634161416140",
            Payload::Inside,
            certified,
        ),
        ("8449a20126182143616263a0416140", Payload::Inside, certified),
        (
            "8446a20126182140a1182143616263416140",
            Payload::Inside,
            certified,
        ),
        // A text in place of the certificate, in the headers looked at first and alone; an empty chain beside
        // a key.
        (
            "8449a20126182143616263a118216161416140",
            Payload::Inside,
            certified,
        ),
        ("8443a10126a11821816161416140", Payload::Inside, "mkid:"),
        ("8443a10126a2044131182180416140", Payload::Inside, "mkid:31"),
    ] {
        assert!(rt; is_named(alloc, hex, expected, name)?);
    }
    Ok(())
}

// The example of RFC 9052, appendix C.2.1, whose signature is over the bytes at the end.
#[test]
fn a_message_of_the_standard(rt: HostRuntime) -> Result<(), Fail> {
    let alloc = rt.alloc();
    let hex =
        "d28443a10126a10442313154546869732069732074686520636f6e74656e742e58408eb33e4ca31d1c465ab05aac34cc6b23d58fef5c083106c4d25a91aef0b0117e2af9a291aa32e14ab834dc56ed2a223444547e01f11d3b0916e5a4c345cacb36";
    let signed = "846a5369676e61747572653143a101264054546869732069732074686520636f6e74656e742e";
    assert!(rt; is_signed(alloc, hex, b"This is the content.", signed)?);
    Ok(())
}
