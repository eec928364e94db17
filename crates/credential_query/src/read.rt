// Credential queries from JSON.
ghost use Rattle.std.specs.Prelude.{◌≡◌, true, IfOk, map, option_map};
ghost use Rattle.serde_json.specs.View.{view};
ghost use Rattle.credential_query.specs.Meaning.{strings_of, claim_of, claims_of, format_of};
ghost use Rattle.credential_query.specs.Meaning.{kinds_in, kinds_of, credential_of};
ghost use Rattle.credential_query.specs.Readable.{is_readable_claim, are_readable_claims};
ghost use Rattle.credential_query.specs.Readable.{is_readable_credential};

use crate::credential::{Claim, CredentialQuery};
use crate::error::NoMemory;
use crate::read_sets::read_sets;
use claim_path::{Path, Values};
use claim_tree::{Format, Name};
use dcql_rules::{flag_at, has_format};
use json_forms::{elements, elements_at, text_at};
use serde_json::Value;
use std::alloc::Global;

impl CredentialQuery {
    /// The credential query that a JSON value is which has an `id` of the right form and breaks none of the
    /// rules 5 to 20 of [`dcql_rules::query_rule`].
    pub fn from_valid(alloc: Global, query: &Value) -> Result<CredentialQuery, NoMemory>
        requires { is_readable_credential (view query.now) ≡ true }
        ensures { IfOk result (λ q. q ≡ credential_of (view query.now)) }
    {
        let format = format_of(query);
        Ok(CredentialQuery {
            id: Name::new(alloc, text_at(query, "id").unwrap_or(""))?,
            format,
            kinds: read_kinds(alloc, query, format)?,
            multiple: flag_at(query, "multiple", false),
            binding: flag_at(query, "require_cryptographic_holder_binding", true),
            claims: read_claims(alloc, elements_at(query, "claims"))?,
            sets: read_sets(alloc, query)?,
        })
    }
}

fn format_of(query: &Value) -> Option<Format>
    ensures { result ≡ format_of (view query.now) }
{
    if has_format(query, "dc+sd-jwt") {
        Some(Format::SdJwt)
    } else if has_format(query, "mso_mdoc") {
        Some(Format::Mdoc)
    } else {
        None
    }
}

// ---- the types that `meta` allows

fn read_kinds(
    alloc: Global,
    query: &Value,
    format: Option<Format>,
) -> Result<Option<Vec<Name>>, NoMemory>
    requires { format ≡ format_of (view query.now) }
    ensures { IfOk result (λ o. option_map (λ k. k.items) o ≡ kinds_of (view query.now)) }
{
    match query.get("meta") {
        Some(meta) => read_kinds_in(alloc, meta, format),
        None => Ok(None),
    }
}

fn read_kinds_in(
    alloc: Global,
    meta: &Value,
    format: Option<Format>,
) -> Result<Option<Vec<Name>>, NoMemory>
    ensures { IfOk result (λ o. option_map (λ k. k.items) o ≡ kinds_in format (view meta.now)) }
{
    match format {
        Some(Format::SdJwt) => match meta.get("vct_values") {
            Some(kinds) => Ok(Some(read_strings(alloc, elements(kinds))?)),
            None => Ok(None),
        },
        Some(Format::Mdoc) => match text_at(meta, "doctype_value") {
            Some(kind) => Ok(Some(Vec::from_array(alloc, [Name::new(alloc, kind)?])?)),
            None => Ok(None),
        },
        None => Ok(None),
    }
}

fn read_strings(alloc: Global, values: &[Value]) -> Result<Vec<Name>, NoMemory>
    ensures { IfOk result (λ v. v.items ≡ strings_of (map view values.now)) }
{
    let mut strings = Vec::new(alloc);
    for value in values {
        if let Some(string) = value.as_str() {
            strings.push(Name::new(alloc, string)?)?;
        }
    }
    Ok(strings)
}

// ---- claims

fn read_claims(alloc: Global, values: &[Value]) -> Result<Vec<Claim>, NoMemory>
    requires { are_readable_claims (map view values.now) ≡ true }
    ensures { IfOk result (λ v. v.items ≡ claims_of (map view values.now)) }
{
    let mut claims = Vec::new(alloc);
    for value in values {
        claims.push(read_claim(alloc, value)?)?;
    }
    Ok(claims)
}

fn read_claim(alloc: Global, claim: &Value) -> Result<Claim, NoMemory>
    requires { is_readable_claim (view claim.now) ≡ true }
    ensures { IfOk result (λ c. c ≡ claim_of (view claim.now)) }
{
    let path = Path::from_valid(alloc, claim.get("path").unwrap())?;
    let values = match claim.get("values") {
        Some(values) => Some(Values::from_valid(alloc, values)?),
        None => None,
    };
    Ok(Claim { path, values })
}
