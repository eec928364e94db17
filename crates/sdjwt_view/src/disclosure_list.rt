// The disclosures in an SD-JWT's text, and the rules 3 to 6: type, hash, number and form.
ghost use Rattle.std.specs.Prelude.{◌≡◌, IfOk, List, Some, None, map, option_map, nat_lt, length};
ghost use Rattle.serde_json.specs.View.{view};
ghost use Rattle.jws_envelope.specs.Jws.{envelope};
ghost use Rattle.sdjwt_digests.specs.Disclosures.{all_disclosed};
ghost use Rattle.sdjwt_view.specs.code.DisclosureList.{IsListed};
ghost use Rattle.sdjwt_view.specs.Reading.{has_sd_type, named_hash};
ghost use Rattle.sdjwt_digests.specs.Disclosure.{said};

use base_forms::HashName;
use json_forms::text_at;
use jws_envelope::Jws;
use sdjwt_disclosures::Disclosure;
use serde_json::Value;
use std::alloc::{AllocError, Global};

const MOST_DISCLOSURES: usize = 1_024;

/// What the texts of the disclosures say, or the first of the rules 3 to 6 that is broken.
#[derive(Drop)]
pub enum Listed {
    Read(HashName, Vec<Disclosure>),
    Broken(u8),
}

/// What the disclosures of an issuer's JWS say, by the hash that it names.
#[tactic(auto, unfolding(base_forms::specs::Rules::rule, crate::specs::Reading::forms_rule))]
pub fn read_list(alloc: Global, jws: &Jws<'_>, texts: &[&str]) -> Result<Listed, AllocError>
    ensures { IfOk result (λ listed. IsListed (envelope jws.now) (map (λ s. s.now) texts.now) listed) }
{
    if !has_sd_type(jws.header()) {
        return Ok(Listed::Broken(3));
    }
    let Some(hash) = named_hash(jws.payload()) else {
        return Ok(Listed::Broken(4));
    };
    if texts.len() > MOST_DISCLOSURES {
        return Ok(Listed::Broken(5));
    }
    match read_all(alloc, hash, texts)? {
        Some(list) => Ok(Listed::Read(hash, list)),
        None => Ok(Listed::Broken(6)),
    }
}

fn read_all(
    alloc: Global,
    hash: HashName,
    texts: &[&str],
) -> Result<Option<Vec<Disclosure>>, AllocError>
    ensures { IfOk result
        (λ o. option_map (λ v. map said v.items) o ≡ all_disclosed hash (map (λ s. s.now) texts.now)) }
{
    let mut list = Vec::new(alloc);
    for text in texts {
        match Disclosure::read(alloc, hash, text)? {
            Some(disclosure) => list.push(disclosure)?,
            None => return Ok(None),
        }
    }
    Ok(Some(list))
}

// Whether `typ` names an SD-JWT VC.
fn has_sd_type(header: &Value) -> bool
    ensures { result ≡ has_sd_type (view header.now) }
{
    match text_at(header, "typ") {
        Some(typ) => typ == "dc+sd-jwt" || typ == "vc+sd-jwt",
        None => false,
    }
}

// The hash that `_sd_alg` names, SHA-256 where it is missing.
fn named_hash(payload: &Value) -> Option<HashName>
    ensures { result ≡ named_hash (view payload.now) }
{
    let Some(name) = payload.get("_sd_alg") else {
        return Some(HashName::Sha256);
    };
    match name.as_str() {
        Some(name) => HashName::from_text(name),
        None => None,
    }
}
