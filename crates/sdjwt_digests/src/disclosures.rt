// The disclosures of a credential, found by their digests.
ghost use Rattle.std.specs.Prelude.{◌≡◌, IfOk, map, option_map};
ghost use Rattle.std.specs.Option.{IfSome, is_some};
ghost use Rattle.serde_json.specs.View.{view};
ghost use Rattle.base_forms.specs.Texts.{Utf8, differ};
ghost use Rattle.sdjwt_digests.specs.Disclosures.{found};
ghost use Rattle.sdjwt_digests.specs.Disclosure.{said};
ghost use Rattle.sdjwt_digests.specs.code.Indexes.{own_digest, first_index, index_at};

use crate::disclosure::Disclosure;
use std::alloc::{AllocError, Global};
use std::collections::BTreeMap;

/// The disclosures in the order of the text, and the index of each digest. Their digests differ.
#[derive(Drop)]
pub struct Disclosures<'a> {
    list: &'a [Disclosure],
    order: BTreeMap<&'a str, usize>,
    ghost indexed: { (x : Utf8) → index_at order x ≡ first_index x (map own_digest list.now) },
}

impl<'a> Disclosures<'a> {
    ghost use Rattle.sdjwt_digests.specs.code.Disclosures.{all_said};

    /// The disclosure that has a digest.
    pub fn find(&self, digest: &str) -> Option<&'a Disclosure>
        ensures { option_map (λ d. said d.now) result ≡ found digest.now (all_said self.now) }
    {
        match self.order.get(digest) {
            Some(index) => self.list.get(*index),
            None => None,
        }
    }

    /// The place of the disclosure that has a digest, in the order of the text.
    pub fn index_of(&self, digest: &str) -> Option<usize>
        ensures { result ≡ first_index digest.now (map (λ l. l.digest) (all_said self.now)) }
    {
        match self.order.get(digest) {
            Some(index) => Some(*index),
            None => None,
        }
    }

    /// The disclosures in the order of the text.
    pub fn list(&self) -> &'a [Disclosure]
        ensures { map said result.now ≡ all_said self.now }
    {
        self.list
    }

    /// The disclosures, and none where two digests are equal.
    pub fn new(alloc: Global, list: &'a [Disclosure]) -> Result<Option<Disclosures<'a>>, AllocError>
        ensures list { IfOk result (λ o. IfSome o (λ ds. all_said ds ≡ map said list.now)) }
        ensures differ { IfOk result (λ o. is_some o ≡ differ (map own_digest list.now)) }
    {
        match index(alloc, list)? {
            Some(order) => Ok(Some(Disclosures { list, order })),
            None => Ok(None),
        }
    }
}

// The index of each digest in the list, and none where two digests are equal.
fn index<'a>(
    alloc: Global,
    list: &'a [Disclosure],
) -> Result<Option<BTreeMap<&'a str, usize>>, AllocError>
    ensures indexed { IfOk result
        (λ o. IfSome o (λ order. (x : Utf8)
        → index_at order x ≡ first_index x (map own_digest list.now))) }
    ensures differ { IfOk result
        (λ o. is_some o ≡ differ (map own_digest list.now)) }
{
    let mut order = BTreeMap::new(alloc);
    for i in 0..list.len() {
        if order.insert(list[i].digest(), i)?.is_some() {
            return Ok(None);
        }
    }
    Ok(Some(order))
}
