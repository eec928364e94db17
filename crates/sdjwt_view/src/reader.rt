// The content of an SD-JWT whose JWS breaks no rule.
ghost use Rattle.std.specs.Prelude.{◌≡◌, true, None, IfOk, IfErr, map};
ghost use Rattle.claim_tree.specs.Plain.{plain};
ghost use Rattle.claim_tree.specs.Tree.{RecordOf, is_claim};
ghost use Rattle.claim_tree.specs.Parts.{members_of};
ghost use Rattle.owned_tree.specs.Owned.{named_of};
ghost use Rattle.jws_envelope.specs.Jws.{envelope};
ghost use Rattle.sdjwt_facts.specs.Facts.{facts_rule};
ghost use Rattle.sdjwt_view.specs.Reading.{inner_rule, later_rule, content_from, content_with, members_with};
ghost use Rattle.sdjwt_view.specs.code.Content.{content_in_memory};
ghost use Rattle.sdjwt_digests.specs.Disclosure.{said};
ghost use Rattle.sdjwt_view.specs.code.Refusal.{IsInnerRefusal};

use crate::content::Content;
use crate::disclosure_list::{Listed, read_list};
use crate::error::Error;
use base_forms::HashName;
use jws_envelope::Jws;
use owned_tree::{OwnedMember, OwnedTree};
use sdjwt_disclosures::{Disclosure, Processed, process};
use sdjwt_facts::{facts_rule, first_of, holder_of, kind_of, past_of};
use std::alloc::Global;

// What a JWS says with the disclosures of these texts.
pub fn read_content<'t>(alloc: Global, jws: Jws<'t>, texts: &[&str]) -> Result<Content<'t>, Error>
    requires { is_claim (plain (envelope jws).payload) ≡ true }
    ensures sound { IfOk result (λ _. inner_rule (envelope jws.entry) (map (λ s. s.now) texts.now) ≡ None) }
    ensures read { IfOk result
        (λ c. content_in_memory c ≡ content_from (envelope jws.entry) (map (λ s. s.now) texts.now)) }
    ensures refused { IfErr result
        (λ e. IsInnerRefusal (inner_rule (envelope jws.entry) (map (λ s. s.now) texts.now)) e) }
{
    match read_list(alloc, &jws, texts)? {
        Listed::Read(hash, list) => read_processed(alloc, jws, hash, list),
        Listed::Broken(rule) => Err(Error::Refused(rule)),
    }
}

// What a JWS says with these disclosures.
fn read_processed<'t>(
    alloc: Global,
    jws: Jws<'t>,
    hash: HashName,
    list: Vec<Disclosure>,
) -> Result<Content<'t>, Error>
    requires { is_claim (plain (envelope jws).payload) ≡ true }
    ensures sound { IfOk result (λ _. later_rule (envelope jws.entry).payload (map said list.items) ≡ None) }
    ensures read { IfOk result
        (λ c. content_in_memory c ≡ content_with (envelope jws.entry) hash
        (members_with (envelope jws.entry).payload (map said list.items))) }
    ensures refused { IfErr result
        (λ e. IsInnerRefusal (later_rule (envelope jws.entry).payload (map said list.items)) e) }
{
    match process(alloc, jws.payload(), &list)? {
        Processed::Tree(members) => read_facts(alloc, jws, hash, members),
        Processed::Broken(rule) => Err(Error::Refused(rule)),
    }
}

// What a JWS says with these members of its tree.
fn read_facts<'t>(
    alloc: Global,
    jws: Jws<'t>,
    hash: HashName,
    members: Vec<OwnedMember>,
) -> Result<Content<'t>, Error>
    requires { is_claim (RecordOf (members_of (map named_of members.items))) ≡ true }
    ensures sound { IfOk result (λ _. facts_rule (envelope jws.entry).payload ≡ None) }
    ensures read { IfOk result
        (λ c. content_in_memory c ≡ content_with (envelope jws.entry) hash (map named_of members.items)) }
    ensures refused { IfErr result (λ e. IsInnerRefusal (facts_rule (envelope jws.entry).payload) e) }
{
    if let Some(rule) = facts_rule(jws.payload()) {
        return Err(Error::Refused(rule));
    }
    let kind = String::from_str(alloc, kind_of(jws.payload()))?;
    let Ok(issuer) = jws.issuer_name(alloc) else {
        return Err(Error::NoMemory);
    };
    let holder = holder_of(alloc, jws.payload())?;
    let first = first_of(jws.payload());
    let past = past_of(jws.payload());
    Ok(Content {
        jws,
        hash,
        root: OwnedTree::Record(members),
        kind,
        issuer,
        holder,
        first,
        past,
    })
}
