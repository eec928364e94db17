// The four parts of a message.
ghost use Rattle.std.specs.Prelude.{◌≡◌, ◌∷◌, [], option_map};
ghost use Rattle.cbor_core.specs.Seen.{span_of};
ghost use Rattle.cose_sign1.specs.code.Parts.{said};
ghost use Rattle.cose_sign1.specs.Sign1.{untagged, payload_in, parts_in, message_in};

use cbor_core::{Item, Kind};

const SIGN1: u64 = 18;

/// The four parts of a message. They borrow its bytes.
#[derive(Clone, Copy)]
pub struct Parts<'a> {
    pub protected: &'a [u8],
    pub unprotected: Item<'a>,
    pub payload: Option<&'a [u8]>,
    pub signature: &'a [u8],
}

impl<'a> Parts<'a> {
    /// The parts of an item that is a list of four, under tag 18 or none.
    pub fn of(item: Item<'a>) -> Option<Parts<'a>>
        ensures { option_map said result ≡ message_in (span_of item.entry) }
    {
        let mut items = untagged(item).items();
        let protected = items.next()?;
        let unprotected = items.next()?;
        let payload = items.next()?;
        let signature = items.next()?;
        if items.next().is_some() {
            return None;
        }
        parts_in(protected, unprotected, payload, signature)
    }
}

// What stands under the tag of these messages, or the item itself.
fn untagged<'a>(item: Item<'a>) -> Item<'a>
    ensures { span_of result ≡ untagged (span_of item.entry) }
{
    match item.tag() {
        Some((SIGN1, inner)) => inner,
        _ => item,
    }
}

fn parts_in<'a>(
    protected: Item<'a>,
    unprotected: Item<'a>,
    payload: Item<'a>,
    signature: Item<'a>,
) -> Option<Parts<'a>>
    ensures { option_map said result ≡ parts_in
        (span_of protected.entry ∷ span_of unprotected.entry ∷ span_of payload.entry ∷ span_of signature.entry
        ∷ []) }
{
    let protected = protected.bytes()?;
    if !matches!(unprotected.kind(), Kind::Map) {
        return None;
    }
    let payload = payload_in(payload)?;
    let signature = signature.bytes()?;
    Some(Parts {
        protected,
        unprotected,
        payload,
        signature,
    })
}

// The payload: bytes, or null where it is detached.
fn payload_in<'a>(item: Item<'a>) -> Option<Option<&'a [u8]>>
    ensures { option_map (λ o. option_map (λ b. b.now) o) result ≡ payload_in (span_of item.entry) }
{
    match item.bytes() {
        Some(bytes) => Some(Some(bytes)),
        None => {
            if matches!(item.kind(), Kind::Null) {
                Some(None)
            } else {
                None
            }
        }
    }
}
