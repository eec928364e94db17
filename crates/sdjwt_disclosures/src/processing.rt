// The processing of an SD-JWT (RFC 9901, section 7.1): its disclosures by the rules 7 to 14, and its claim
// tree.
ghost use Rattle.std.specs.Prelude.{◌≡◌, true, IfOk, map, option_map};
ghost use Rattle.std.specs.List.{list_any};
ghost use Rattle.serde_json.specs.View.{view};
ghost use Rattle.base_forms.specs.Texts.{is_among, differ};
ghost use Rattle.sdjwt_digests.specs.code.Disclosures.{all_said};
ghost use Rattle.sdjwt_digests.specs.code.Sites.{AreSitesOf, all_in};
ghost use Rattle.owned_tree.specs.Owned.{named_of};
ghost use Rattle.sdjwt_digests.specs.DigestSites.{digest_at};
ghost use Rattle.sdjwt_disclosures.specs.MemberNames.{has_clash};
ghost use Rattle.sdjwt_disclosures.specs.Processed.{IsProcessed};
ghost use Rattle.sdjwt_disclosures.specs.code.Processed.{IsOwnProcessed};
ghost use Rattle.sdjwt_disclosures.specs.MemberNames.{plain_only, top_names, any_clash};
ghost use Rattle.sdjwt_disclosures.specs.DisclosureRules.{names_rule};
ghost use Rattle.sdjwt_digests.specs.Disclosure.{said};
ghost use Rattle.sdjwt_disclosures.specs.DisclosedTree.{spelled_payload};

use crate::disclosed_tree::spell_members;
use crate::member_names::{disclosed_names, has_clash};
use crate::reachable::are_reached;
use crate::site_kinds::has_mismatch;
use base_forms::are_distinct;
use owned_tree::OwnedMember;
use sdjwt_digests::digest_sites::Sites;
use sdjwt_digests::{Disclosure, Disclosures, reserved_names_rule};
use serde_json::Value;
use std::alloc::{AllocError, Global};

const INNER_LEVELS: usize = 63;

/// The members of the claim tree's root, or the first of the rules 7 to 14 that is broken.
#[derive(Drop)]
pub enum Processed {
    Tree(Vec<OwnedMember>),
    Broken(u8),
}

/// The payload with each disclosure where its digest stood.
pub fn process<'a>(
    alloc: Global,
    payload: &'a Value,
    list: &'a [Disclosure],
) -> Result<Processed, AllocError>
    ensures { IfOk result (λ processed. IsProcessed (view payload.now) (map said list.now) processed) }
{
    if let Some(rule) = reserved_names_rule(payload, list) {
        return Ok(Processed::Broken(rule));
    }
    let sites = Sites::gather(alloc, payload, list)?;
    if !are_apart(alloc, &sites)? {
        return Ok(Processed::Broken(9));
    }
    match Disclosures::new(alloc, list)? {
        Some(disclosures) => process_own(alloc, payload, &disclosures, &sites),
        None => Ok(Processed::Broken(10)),
    }
}

// The same where the rules 7 to 9 hold and the disclosures' digests differ, with all sites.
fn process_own<'a>(
    alloc: Global,
    payload: &'a Value,
    disclosures: &Disclosures<'a>,
    sites: &Sites<'a>,
) -> Result<Processed, AllocError>
    requires differ { differ (map (λ l. l.digest) (all_said disclosures.now)) ≡ true }
    requires sites { AreSitesOf sites.now (view payload.now) (all_said disclosures.now) }
    ensures { IfOk result
        (λ processed. IsOwnProcessed (view payload.now) (all_said disclosures.now) processed) }
{
    if !are_reached(alloc, disclosures, sites)? {
        return Ok(Processed::Broken(10));
    }
    if let Some(rule) = names_rule(alloc, payload, disclosures, sites)? {
        return Ok(Processed::Broken(rule));
    }
    match spell_payload(alloc, payload, disclosures)? {
        Some(members) => Ok(Processed::Tree(members)),
        None => Ok(Processed::Broken(14)),
    }
}

// Whether no two sites hold equal digests.
fn are_apart(alloc: Global, sites: &Sites<'_>) -> Result<bool, AllocError>
    ensures { IfOk result (λ b. b ≡ differ (map digest_at (all_in sites.now))) }
{
    let digests = sites.digests(alloc)?;
    are_distinct(alloc, &digests)
}

// The first of the rules 11 to 13 that is broken, on kinds and names of disclosures.
#[tactic(auto, using(crate::proofs::ProcessingSteps::tested_together), unfolding(base_forms::specs::Rules::rule, crate::specs::DisclosureRules::names_rule))]
fn names_rule(
    alloc: Global,
    payload: &Value,
    disclosures: &Disclosures<'_>,
    sites: &Sites<'_>,
) -> Result<Option<u8>, AllocError>
    requires { AreSitesOf sites.now (view payload.now) (all_said disclosures.now) }
    ensures { IfOk result (λ o. o ≡ names_rule (view payload.now) (all_said disclosures.now)) }
{
    if has_mismatch(disclosures, sites) {
        return Ok(Some(11));
    }
    if any_clash(alloc, payload, disclosures)? {
        return Ok(Some(12));
    }
    let names = top_names(alloc, payload, disclosures)?;
    if any_is_plain_only(&names) {
        return Ok(Some(13));
    }
    Ok(None)
}

fn any_clash(
    alloc: Global,
    payload: &Value,
    disclosures: &Disclosures<'_>,
) -> Result<bool, AllocError>
    ensures { IfOk result (λ b. b ≡ any_clash (view payload.now) (all_said disclosures.now)) }
{
    if has_clash(alloc, disclosures, payload)? {
        return Ok(true);
    }
    any_value_clashes(alloc, disclosures, disclosures.list())
}

fn any_value_clashes(
    alloc: Global,
    disclosures: &Disclosures<'_>,
    list: &[Disclosure],
) -> Result<bool, AllocError>
    ensures { IfOk result
        (λ b. b ≡ list_any (λ l. has_clash (all_said disclosures.now) l.value) (map said list.now)) }
{
    for disclosure in list {
        if has_clash(alloc, disclosures, disclosure.value())? {
            return Ok(true);
        }
    }
    Ok(false)
}

// The names that the top object gets from disclosures.
fn top_names<'a>(
    alloc: Global,
    payload: &Value,
    disclosures: &Disclosures<'a>,
) -> Result<Vec<&'a str>, AllocError>
    ensures { IfOk result
        (λ v. map (λ s. s.now) v.items ≡ top_names (all_said disclosures.now) (view payload.now)) }
{
    match payload.as_object() {
        Some(object) => disclosed_names(alloc, disclosures, object),
        None => Ok(Vec::new(alloc)),
    }
}

fn any_is_plain_only(names: &[&str]) -> bool
    ensures { result ≡ list_any (λ k. is_among k plain_only) (map (λ s. s.now) names.now) }
{
    names.iter().any(|name| is_plain_only(name))
}

// Whether a member of this name may stand in the top object as signed alone, and never come from a
// disclosure.
fn is_plain_only(name: &str) -> bool
    ensures { result ≡ is_among name.now plain_only }
{
    "iss" == name
        || "nbf" == name
        || "exp" == name
        || "cnf" == name
        || "vct" == name
        || "status" == name
        || "_sd_alg" == name
}

fn spell_payload(
    alloc: Global,
    payload: &Value,
    disclosures: &Disclosures<'_>,
) -> Result<Option<Vec<OwnedMember>>, AllocError>
    ensures { IfOk result
        (λ o. option_map (λ v. map named_of v.items) o ≡ spelled_payload (all_said disclosures.now)
        (view payload.now)) }
{
    match payload.as_object() {
        Some(object) => spell_members(alloc, INNER_LEVELS, disclosures, true, object),
        None => Ok(None),
    }
}
