// Credential sets from JSON.
ghost use Rattle.std.specs.Prelude.{◌≡◌, ◌<◌, ◌≤◌, ◌^◌, IfOk, map, length, false};
ghost use Rattle.std.specs.Option.{option_map_or};
ghost use Rattle.serde_json.specs.View.{view};
ghost use Rattle.serde_json.specs.Find.{as_str};
ghost use Rattle.dcql_rules.specs.Ids.{is_named};
ghost use Rattle.dcql_query.specs.Meaning.{is_among, option_bits, options_of, credential_set_of};
ghost use Rattle.dcql_query.specs.Meaning.{credential_sets_of};

use crate::query::CredentialSet;
use credential_query::NoMemory;
use dcql_rules::{flag_at, is_named};
use json_forms::{elements, elements_at};
use serde_json::Value;
use std::alloc::Global;

pub(crate) fn read_credential_sets(
    alloc: Global,
    queries: &[Value],
    sets: &[Value],
) -> Result<Vec<CredentialSet>, NoMemory>
    requires { length queries.now ≤ 16 }
    ensures { IfOk result (λ v. v.items ≡ credential_sets_of (map view queries.now) (map view sets.now)) }
{
    let mut read = Vec::new(alloc);
    for set in sets {
        read.push(read_credential_set(alloc, queries, set)?)?;
    }
    Ok(read)
}

fn read_credential_set(
    alloc: Global,
    queries: &[Value],
    set: &Value,
) -> Result<CredentialSet, NoMemory>
    requires { length queries.now ≤ 16 }
    ensures { IfOk result (λ s. s ≡ credential_set_of (map view queries.now) (view set.now)) }
{
    let options = read_options(alloc, queries, elements_at(set, "options"))?;
    let required = flag_at(set, "required", true);
    Ok(CredentialSet { options, required })
}

fn read_options(alloc: Global, queries: &[Value], options: &[Value]) -> Result<Vec<u16>, NoMemory>
    requires { length queries.now ≤ 16 }
    ensures { IfOk result (λ v. v.items ≡ options_of (map view queries.now) (map view options.now)) }
{
    let mut read = Vec::new(alloc);
    for option in options {
        read.push(option_bits(elements(option), queries))?;
    }
    Ok(read)
}

// The number whose bit i says whether query i is among the names.
fn option_bits(names: &[Value], queries: &[Value]) -> u16
    requires { length queries.now ≤ 16 }
    ensures bits { result ≡ option_bits (map view names.now) (map view queries.now) }
    ensures below { result < 2 ^ length queries.now }
{
    let Some((first, rest)) = queries.split_first() else {
        return 0;
    };
    let higher = option_bits(names, rest);
    if is_among(names, first) {
        1 + 2 * higher
    } else {
        2 * higher
    }
}

fn is_among(names: &[Value], query: &Value) -> bool
    ensures { result ≡ is_among (map view names.now) (view query.now) }
{
    names.iter().any(|name| is_name_of(name, query))
}

fn is_name_of(name: &Value, query: &Value) -> bool
    ensures { result ≡ option_map_or (λ s. is_named s (view query.now)) (as_str (view name.now)) false }
{
    match name.as_str() {
        Some(name) => is_named(query, name),
        None => false,
    }
}
