// The names that disclosures bring to an object, and names that an object gets twice.
ghost use Rattle.std.specs.Prelude.{◌≡◌, ◌++◌, OnOk, IfOk, map};
ghost use Rattle.std.specs.List.{list_any};
ghost use Rattle.std.specs.Option.{is_some};
ghost use Rattle.serde_json.specs.Find.{get_member};
ghost use Rattle.serde_json.specs.View.{view, items_view, members_view};
ghost use Rattle.sdjwt_digests.specs.code.Disclosures.{all_said};
ghost use Rattle.sdjwt_digests.specs.DigestSites.{own_digests, texts_in};
ghost use Rattle.sdjwt_disclosures.specs.MemberNames.{disclosed_names, gets_clash, has_clash};
ghost use Rattle.sdjwt_disclosures.specs.MemberNames.{items_have_clash};
ghost use Rattle.sdjwt_disclosures.specs.MemberNames.{members_have_clash};

use base_forms::are_distinct;
use sdjwt_digests::Disclosures;
use sdjwt_digests::digest_sites::{entry, own_digests, placeholder};
use serde_json::{Map, Value};
use std::alloc::{AllocError, Global};

/// The names that an object gets from disclosures.
pub fn disclosed_names<'a>(
    alloc: Global,
    disclosures: &Disclosures<'a>,
    object: &Map<String, Value>,
) -> Result<Vec<&'a str>, AllocError>
    ensures { IfOk result
        (λ v. map (λ s. s.now) v.items ≡ disclosed_names (all_said disclosures.now)
        (own_digests (members_view object.now.entries))) }
{
    let mut names = Vec::new(alloc);
    if let Some(digests) = own_digests(object) {
        add_names(disclosures, digests, &mut names)?;
    }
    Ok(names)
}

fn add_names<'a>(
    disclosures: &Disclosures<'a>,
    digests: &Vec<Value>,
    names: &mut Vec<&'a str>,
) -> Result<(), AllocError>
    ensures { OnOk result
        (map (λ s. s.now) names.new.items ≡ map (λ s. s.now) names.old.items ++ disclosed_names
        (all_said disclosures.now) (texts_in (items_view digests.now.items))) }
{
    for item in digests {
        if let Some(digest) = item.as_str() {
            if let Some(disclosure) = disclosures.find(digest) {
                if let Some(name) = disclosure.name() {
                    names.push(name)?;
                }
            }
        }
    }
    Ok(())
}

fn has_any_member(names: &[&str], object: &Map<String, Value>) -> bool
    ensures { result ≡ list_any (λ k. is_some (get_member k (members_view object.now.entries)))
        (map (λ s. s.now) names.now) }
{
    names.iter().any(|name| entry(object, name).is_some())
}

/// Whether some object within the value, other than a placeholder, gets a name twice.
#[cycle(clash)]
pub fn has_clash(
    alloc: Global,
    disclosures: &Disclosures<'_>,
    value: &Value,
) -> Result<bool, AllocError>
    ensures { IfOk result (λ b. b ≡ has_clash (all_said disclosures.now) (view value.now)) }
{
    match value {
        Value::Array(list) => items_have_clash(alloc, disclosures, list),
        Value::Object(object) => {
            let names = disclosed_names(alloc, disclosures, object)?;
            if !are_distinct(alloc, &names)? || has_any_member(&names, object) {
                return Ok(true);
            }
            members_have_clash(alloc, disclosures, object)
        }
        Value::Null | Value::Bool(_) | Value::Number(_) | Value::String(_) => Ok(false),
    }
}

#[cycle(clash)]
fn items_have_clash(
    alloc: Global,
    disclosures: &Disclosures<'_>,
    list: &Vec<Value>,
) -> Result<bool, AllocError>
    ensures { IfOk result
        (λ b. b ≡ items_have_clash (all_said disclosures.now) (items_view list.now.items)) }
{
    for item in list {
        if placeholder(item).is_none() && has_clash(alloc, disclosures, item)? {
            return Ok(true);
        }
    }
    Ok(false)
}

#[cycle(clash)]
fn members_have_clash(
    alloc: Global,
    disclosures: &Disclosures<'_>,
    object: &Map<String, Value>,
) -> Result<bool, AllocError>
    ensures { IfOk result
        (λ b. b ≡ members_have_clash (all_said disclosures.now) (members_view object.now.entries)) }
{
    for (name, value) in object {
        if name.as_str() != "_sd" && has_clash(alloc, disclosures, value)? {
            return Ok(true);
        }
    }
    Ok(false)
}
