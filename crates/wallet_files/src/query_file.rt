// The query file of a command that asks for one credential.
ghost use Rattle.std.specs.Prelude.{◌≡◌, IfOk, option_map};
ghost use Rattle.std.specs.Option.{option_copied};
ghost use Rattle.dcql_query.specs.Meaning.{query_of};
ghost use Rattle.program_steps.specs.code.Endings.{ending, outcome};
ghost use Rattle.runs.specs.Runs.{Runs};
ghost use Rattle.runs.specs.World.{World};
ghost use Rattle.serde_json.specs.View.{view};
ghost use Rattle.wallet_files.specs.QueryFile.{read_query, only, query_refusal};

use dcql_query::{CredentialQuery, Error, Query};
use json_forms::read_json;
use outside::{Status, Store};
use program_steps::{FILE_LIMIT, Reply, Stop, file_refused, query_refused, read_file, reply_of};
use serde_json::Value;
use std::alloc::{AllocError, Global};

/// The JSON value of the query file.
///
/// # Errors
///
/// A refusal of the file; a fault of the store; out of memory.
pub fn read_query<S: Store>(alloc: Global, store: &mut S, name: &str) -> Result<Value, Stop>
    ensures { (w : World) → Runs (read_query name.now) (record w { store = S.state store.old })
        (record w { store = S.state store.new }) (ending view result) }
{
    let bytes = read_file(alloc, store, name, FILE_LIMIT)?;
    match read_json(alloc, &bytes)? {
        Some(value) => Ok(value),
        None => Err(Stop::Refused(file_refused(alloc, name, 1)?)),
    }
}

/// The query that a JSON value is, or the least rule that it breaks.
pub fn query_by(alloc: Global, value: &Value) -> Result<Result<Query, u8>, AllocError>
    ensures { IfOk result (λ query. query ≡ query_of (view value.now)) }
{
    match Query::from_json(alloc, value) {
        Ok(query) => Ok(Ok(query)),
        Err(Error::Refused(rule)) => Ok(Err(rule)),
        Err(Error::NoMemory) => Err(AllocError),
    }
}

/// The credential query, where there is just one.
pub fn only(query: &Result<Query, u8>) -> Option<&CredentialQuery>
    ensures { option_copied result ≡ only query.now }
{
    match query {
        Ok(query) if query.len() == 1 => Some(query.at(0)),
        _ => None,
    }
}

/// What is printed where the query breaks a rule, or has not just one credential query.
pub fn query_refusal(alloc: Global, query: &Result<Query, u8>) -> Result<Option<Reply>, AllocError>
    ensures { IfOk result (λ refusal. option_map outcome refusal ≡ query_refusal query.now) }
{
    match query {
        Err(rule) => Ok(Some(query_refused(alloc, *rule)?)),
        Ok(query) if query.len() == 1 => Ok(None),
        Ok(_) => Ok(Some(reply_of(alloc, Status::NotOne, "not one\n")?)),
    }
}
