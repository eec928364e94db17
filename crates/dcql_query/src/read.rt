// Queries from JSON.
ghost use Rattle.std.specs.Prelude.{◌≡◌, true, Ok, IfOk, IfErr, [], map};
ghost use Rattle.serde_json.specs.View.{view};
ghost use Rattle.dcql_rules.specs.AllBroken.{broken_by};
ghost use Rattle.dcql_query.specs.Meaning.{credentials_of, query_of};
ghost use Rattle.dcql_query.specs.Refusal.{IsRefusal, IsLeastOf};
ghost use Rattle.dcql_query.specs.code.Readable.{are_readable_credentials};

use crate::error::Error;
use crate::query::Query;
use crate::read_sets::read_credential_sets;
use credential_query::{CredentialQuery, NoMemory};
use dcql_rules::query_rule;
use json_forms::{elements, elements_at};
use serde_json::Value;
use std::alloc::Global;

impl Query {
    /// The query that a JSON value asks for. Members that the language does not name are passed over.
    ///
    /// # Errors
    ///
    /// [`Error::Refused`] with the least rule that is broken anywhere in the value, from 1 to 22, as
    /// [`dcql_rules::query_rule`] gives it.
    ///
    /// [`Error::NoMemory`] where it is out of memory.
    #[tactic(auto, unfolding(base_forms::specs::Rules::rule))]
    pub fn from_json(alloc: Global, value: &Value) -> Result<Query, Error>
        ensures ok { IfOk result (λ q. query_of (view value.now) ≡ Ok q) }
        ensures refused { IfErr result (λ e. IsRefusal (query_of (view value.now)) e) }
        ensures unbroken { IfOk result (λ q. broken_by (view value.now) ≡ []) }
        ensures least { IfErr result (λ e. IsLeastOf (broken_by (view value.now)) e) }
    {
        if let Some(rule) = query_rule(value) {
            return Err(Error::Refused(rule));
        }
        let queries = elements_at(value, "credentials");
        let credentials = read_credentials(alloc, queries)?;
        let sets = match value.get("credential_sets") {
            Some(sets) => Some(read_credential_sets(alloc, queries, elements(sets))?),
            None => None,
        };
        Ok(Query { credentials, sets })
    }
}

fn read_credentials(alloc: Global, queries: &[Value]) -> Result<Vec<CredentialQuery>, NoMemory>
    requires { are_readable_credentials (map view queries.now) ≡ true }
    ensures { IfOk result (λ v. v.items ≡ credentials_of (map view queries.now)) }
{
    let mut credentials = Vec::new(alloc);
    for query in queries {
        credentials.push(CredentialQuery::from_valid(alloc, query)?)?;
    }
    Ok(credentials)
}
