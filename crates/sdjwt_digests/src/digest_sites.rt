// The sites of digests in a JSON value.
ghost use Rattle.std.specs.Prelude.{◌≡◌, ◌==◌, ◌++◌, IfOk, OnOk, map, option_map, option_and_then};
ghost use Rattle.serde_json.specs.Events.{members_len};
ghost use Rattle.serde_json.specs.View.{view, items_view, members_view};
ghost use Rattle.serde_json.specs.Find.{as_array, get_member};
ghost use Rattle.sdjwt_digests.specs.code.Disclosures.{site_of, sites_said};
ghost use Rattle.sdjwt_digests.specs.DigestSites.{sd, placeholder, digest_at, sites_in, sites_in_items};
ghost use Rattle.sdjwt_digests.specs.DigestSites.{sites_in_members, listed, in_object};
ghost use Rattle.sdjwt_digests.specs.Disclosure.{said};

use crate::disclosure::Disclosure;
use serde_json::{Map, Value};
use std::alloc::{AllocError, Global};

fn is_alone(map: &Map<String, Value>) -> bool
    ensures { result ≡ (members_len (members_view map.now.entries) == 1) }
{
    map.len() == 1
}

/// The digest of a placeholder `{"...": digest}`.
pub fn placeholder(value: &Value) -> Option<&str>
    ensures { option_map (λ s. s.now) result ≡ placeholder (view value.now) }
{
    let Some(map) = value.as_object() else {
        return None;
    };
    if !is_alone(map) {
        return None;
    }
    match value.get("...") {
        Some(digest) => digest.as_str(),
        None => None,
    }
}

/// The list `_sd` of an object.
pub fn own_digests(object: &Map<String, Value>) -> Option<&Vec<Value>>
    ensures { option_map (λ v. items_view v.now.items) result ≡ option_and_then as_array
        (get_member sd (members_view object.now.entries)) }
{
    match entry(object, "_sd") {
        Some(value) => value.as_array(),
        None => None,
    }
}

/// The value of an object's member.
pub fn entry<'a>(object: &'a Map<String, Value>, name: &str) -> Option<&'a Value>
    ensures { option_map (λ v. view v.now) result ≡ get_member name.now (members_view object.now.entries) }
{
    object.get(name)
}

/// A site of a digest: in the `_sd` of an object, or in a placeholder of a list.
#[derive(Clone, Copy, Drop)]
pub enum Site<'a> {
    InObject(&'a str),
    InList(&'a str),
}

/// The sites of digests in a credential: those in its payload, and those in the value of each disclosure, in
/// the order of the disclosures.
#[derive(Drop)]
pub struct Sites<'a> {
    pub payload: Vec<Site<'a>>,
    pub values: Vec<Vec<Site<'a>>>,
}

impl<'a> Sites<'a> {
    ghost use Rattle.sdjwt_digests.specs.code.Sites.{AreSitesOf, all_in};

    /// The sites in the payload and in the disclosures' values.
    pub fn gather(
        alloc: Global,
        payload: &'a Value,
        list: &'a [Disclosure],
    ) -> Result<Sites<'a>, AllocError>
        ensures { IfOk result (λ sites. AreSitesOf sites (view payload.now) (map said list.now)) }
    {
        let payload = value_sites(alloc, payload)?;
        let values = list_sites(alloc, list)?;
        Ok(Sites { payload, values })
    }

    /// The digests at all sites.
    pub fn digests(&self, alloc: Global) -> Result<Vec<&'a str>, AllocError>
        ensures { IfOk result (λ v. map (λ s. s.now) v.items ≡ map digest_at (all_in self.now)) }
    {
        let mut digests = Vec::new(alloc);
        add_digests(&self.payload, &mut digests)?;
        for sites in &self.values {
            add_digests(sites, &mut digests)?;
        }
        Ok(digests)
    }
}

// The sites in each disclosure's value.
fn list_sites<'a>(alloc: Global, list: &'a [Disclosure]) -> Result<Vec<Vec<Site<'a>>>, AllocError>
    ensures { IfOk result (λ v. map sites_said v.items ≡ map (λ l. sites_in l.value) (map said list.now)) }
{
    let mut values = Vec::with_capacity(alloc, list.len())?;
    for disclosure in list {
        values.push(value_sites(alloc, disclosure.value())?)?;
    }
    Ok(values)
}

// The sites in a value.
fn value_sites<'a>(alloc: Global, value: &'a Value) -> Result<Vec<Site<'a>>, AllocError>
    ensures { IfOk result (λ v. sites_said v ≡ sites_in (view value.now)) }
{
    let mut sites = Vec::new(alloc);
    gather(value, &mut sites)?;
    Ok(sites)
}

fn add_digests<'a>(sites: &Vec<Site<'a>>, digests: &mut Vec<&'a str>) -> Result<(), AllocError>
    ensures { OnOk result
        (map (λ s. s.now) digests.new.items ≡ map (λ s. s.now) digests.old.items ++ map digest_at
        (sites_said sites.now)) }
{
    for site in sites {
        digests.push(site.digest())?;
    }
    Ok(())
}

// Adds the sites in a value.
#[cycle(gather)]
fn gather<'a>(value: &'a Value, sites: &mut Vec<Site<'a>>) -> Result<(), AllocError>
    ensures { OnOk result
        (map site_of sites.new.items ≡ map site_of sites.old.items ++ sites_in (view value.now)) }
{
    match value {
        Value::Array(list) => gather_list(list, sites),
        Value::Object(object) => gather_object(object, sites),
        Value::Null | Value::Bool(_) | Value::Number(_) | Value::String(_) => Ok(()),
    }
}

#[cycle(gather)]
fn gather_list<'a>(list: &'a Vec<Value>, sites: &mut Vec<Site<'a>>) -> Result<(), AllocError>
    ensures { OnOk result
        (map site_of sites.new.items ≡ map site_of sites.old.items ++ sites_in_items
        (items_view list.now.items)) }
{
    for item in list {
        match placeholder(item) {
            Some(digest) => sites.push(Site::InList(digest))?,
            None => gather(item, sites)?,
        }
    }
    Ok(())
}

#[cycle(gather)]
fn gather_object<'a>(
    object: &'a Map<String, Value>,
    sites: &mut Vec<Site<'a>>,
) -> Result<(), AllocError>
    ensures { OnOk result
        (map site_of sites.new.items ≡ map site_of sites.old.items ++ sites_in_members
        (members_view object.now.entries)) }
{
    for (name, value) in object {
        if name.as_str() == "_sd" {
            gather_listed(value, sites)?;
        } else {
            gather(value, sites)?;
        }
    }
    Ok(())
}

fn gather_listed<'a>(value: &'a Value, sites: &mut Vec<Site<'a>>) -> Result<(), AllocError>
    ensures { OnOk result
        (map site_of sites.new.items
        ≡ map site_of sites.old.items ++ map in_object (listed (view value.now))) }
{
    let Some(list) = value.as_array() else {
        return Ok(());
    };
    for item in list {
        if let Some(digest) = item.as_str() {
            sites.push(Site::InObject(digest))?;
        }
    }
    Ok(())
}

impl<'a> Site<'a> {
    /// The digest that stands there.
    pub fn digest(self) -> &'a str
        ensures { result.now ≡ digest_at (site_of self.entry) }
    {
        match self {
            Site::InObject(digest) => digest,
            Site::InList(digest) => digest,
        }
    }
}
