// The walk over a value that hides parts of it.
ghost use Rattle.std.specs.Prelude.{◌≡◌, ◌++◌, [], false, None, Some, map, IfOk, OnOk, string_bytes};
ghost use Rattle.std.specs.List.{AllByRecursion};
ghost use Rattle.serde_json.specs.View.{view, items_view, members_view};
ghost use Rattle.serde_json.specs.Data.{string, array, object as an_object};
ghost use Rattle.serde_json.specs.Written.{has_float, items_have_float, members_have_float};
ghost use Rattle.claim_names.specs.declared.address.Step.TheVariants.{Name as AName, Place as APlace};
ghost use Rattle.sdjwt_hiding.specs.Hiding.{at, under, sorted, texts, standing, with_digest, with_digests};
ghost use Rattle.sdjwt_hiding.specs.Hiding.{placeholder_of, hidden, hidden_items, left_members, own_digests};
ghost use Rattle.sdjwt_hiding.specs.Hiding.{taken, met, met_items, met_members};
ghost use Rattle.sdjwt_hiding.specs.Disclosing.{by_sha256, all_told, IsReadBack};
ghost use Rattle.sdjwt_hiding.specs.Issued.{all_made};
ghost use Rattle.sdjwt_hiding.specs.code.Walk.{marks_at, put_staying};

use crate::addresses::Places;
use crate::disclosure_text::{IssuedDisclosure, disclose};
use crate::error::NoMemory;
use claim_tree::{Address, Name, Step};
use serde_json::{Map, Value, put};
use std::alloc::Global;

// The value with the parts at these addresses hidden, where the value stands at a path itself. Their
// disclosures come to those that were made.
#[cycle(hide)]
pub fn hide_value(
    alloc: Global,
    marked: &Places<'_>,
    path: &mut Address,
    value: &Value,
    made: &mut Vec<IssuedDisclosure>,
) -> Result<Value, NoMemory>
    requires { has_float (view value.now) ≡ false }
    ensures value { IfOk result
        (λ v. view v ≡ hidden by_sha256 (marks_at marked.now path.old) (view value.now)) }
    ensures made { OnOk result (all_made made.new.items ≡ all_made made.old.items
        ++ all_told (met by_sha256 (marks_at marked.now path.old) (view value.now))) }
    ensures read { IfOk result
        (λ _. AllByRecursion IsReadBack (met by_sha256 (marks_at marked.now path.old) (view value.now))) }
    ensures path { OnOk result (path.new ≡ path.old) }
{
    match value {
        Value::Null => Ok(Value::Null),
        Value::Bool(truth) => Ok(Value::Bool(*truth)),
        Value::Number(number) => Ok(Value::Number(number.clone()?)),
        Value::String(text) => Ok(Value::String(text.clone()?)),
        Value::Array(list) => hide_list(alloc, marked, path, list, made),
        Value::Object(object) => hide_object(alloc, marked, path, object, made),
    }
}

// The part at a step, with what is below it hidden, and its own mark.
#[cycle(hide)]
#[tactic(auto, using(crate::proofs::Below::one_step, crate::proofs::Floats::hidden_whole))]
fn hide_part(
    alloc: Global,
    marked: &Places<'_>,
    path: &mut Address,
    step: Step,
    value: &Value,
    made: &mut Vec<IssuedDisclosure>,
) -> Result<(Value, Option<u64>), NoMemory>
    requires { has_float (view value.now) ≡ false }
    ensures value { IfOk result
        (λ p. view p.0 ≡ hidden by_sha256 (under step (marks_at marked.now path.old)) (view value.now)) }
    ensures whole { IfOk result (λ p. has_float (view p.0) ≡ false) }
    ensures number { IfOk result (λ p. p.1 ≡ at step (marks_at marked.now path.old)) }
    ensures made { OnOk result (all_made made.new.items ≡ all_made made.old.items
        ++ all_told (met by_sha256 (under step (marks_at marked.now path.old)) (view value.now))) }
    ensures read { IfOk result
        (λ _. AllByRecursion IsReadBack
        (met by_sha256 (under step (marks_at marked.now path.old)) (view value.now))) }
    ensures path { OnOk result (path.new ≡ path.old) }
{
    path.push(step)?;
    let number = marked.place(path.steps());
    let inner = hide_value(alloc, marked, path, value, made)?;
    path.pop();
    Ok((inner, number))
}

#[cycle(hide)]
#[tactic(auto, using(crate::proofs::WalkSteps::before_more, crate::proofs::WalkSteps::before_none))]
fn hide_list(
    alloc: Global,
    marked: &Places<'_>,
    path: &mut Address,
    list: &Vec<Value>,
    made: &mut Vec<IssuedDisclosure>,
) -> Result<Value, NoMemory>
    requires { items_have_float (items_view list.now.items) ≡ false }
    ensures value { IfOk result (λ v. view v
        ≡ array (hidden_items by_sha256 (marks_at marked.now path.old) 0 (items_view list.now.items))) }
    ensures made { OnOk result (all_made made.new.items ≡ all_made made.old.items
        ++ all_told (met_items by_sha256 (marks_at marked.now path.old) 0 (items_view list.now.items))) }
    ensures read { IfOk result (λ _. AllByRecursion IsReadBack
        (met_items by_sha256 (marks_at marked.now path.old) 0 (items_view list.now.items))) }
    ensures path { OnOk result (path.new ≡ path.old) }
{
    let mut items = Vec::with_capacity(alloc, list.len())?;
    let mut place = 0u64;
    for item in list {
        let (inner, number) = hide_part(alloc, marked, path, Step::Place(place), item, made)?;
        items.push(stand_element(alloc, number, inner, made)?)?;
        place += 1;
    }
    Ok(Value::Array(items))
}

#[cycle(hide)]
fn hide_object(
    alloc: Global,
    marked: &Places<'_>,
    path: &mut Address,
    object: &Map<String, Value>,
    made: &mut Vec<IssuedDisclosure>,
) -> Result<Value, NoMemory>
    requires { members_have_float (members_view object.now.entries) ≡ false }
    ensures value { IfOk result (λ v. view v ≡ an_object
        (with_digests (own_digests by_sha256 (marks_at marked.now path.old) (members_view object.now.entries))
        (left_members by_sha256 (marks_at marked.now path.old) (members_view object.now.entries)))) }
    ensures made { OnOk result (all_made made.new.items ≡ all_made made.old.items
        ++ all_told (met_members by_sha256 (marks_at marked.now path.old) (members_view object.now.entries))) }
    ensures read { IfOk result (λ _. AllByRecursion IsReadBack
        (met_members by_sha256 (marks_at marked.now path.old) (members_view object.now.entries))) }
    ensures path { OnOk result (path.new ≡ path.old) }
{
    let mut members = Map::new(alloc);
    let mut digests = Vec::new(alloc);
    for (name, value) in object {
        let step = Step::Name(Name::new(alloc, name.as_str())?);
        let (inner, number) = hide_part(alloc, marked, path, step, value, made)?;
        stand_member(
            alloc,
            number,
            name.as_str(),
            inner,
            &mut members,
            &mut digests,
            made,
        )?;
    }
    put_digests(alloc, digests, &mut members)?;
    Ok(Value::Object(members))
}

// An element of a list as it stands there: itself, or a placeholder where it is hidden.
fn stand_element(
    alloc: Global,
    number: Option<u64>,
    value: Value,
    made: &mut Vec<IssuedDisclosure>,
) -> Result<Value, NoMemory>
    requires { has_float (view value) ≡ false }
    ensures stands { IfOk result (λ v. view v ≡ standing by_sha256 number (view value)) }
    ensures made { OnOk result (all_made made.new.items
        ≡ all_made made.old.items ++ all_told (taken by_sha256 number None (view value))) }
    ensures read { IfOk result (λ _. AllByRecursion IsReadBack (taken by_sha256 number None (view value))) }
{
    let Some(number) = number else {
        return Ok(value);
    };
    let disclosure = disclose(alloc, number, None, value)?;
    let shown = placeholder(alloc, disclosure.digest.as_str())?;
    made.push(disclosure)?;
    Ok(shown)
}

// What stands in a list for a hidden element.
fn placeholder(alloc: Global, digest: &str) -> Result<Value, NoMemory>
    ensures { IfOk result (λ v. view v ≡ placeholder_of digest.now) }
{
    let mut members = Map::new(alloc);
    let digest = Value::String(String::from_str(alloc, digest)?);
    put(&mut members, alloc, "...", digest)?;
    Ok(Value::Object(members))
}

// A member comes to those that stay or, where it is hidden, its digest to the digests.
fn stand_member(
    alloc: Global,
    number: Option<u64>,
    name: &str,
    value: Value,
    members: &mut Map<String, Value>,
    digests: &mut Vec<String>,
    made: &mut Vec<IssuedDisclosure>,
) -> Result<(), NoMemory>
    requires { has_float (view value) ≡ false }
    ensures stays { OnOk result (members_view members.new.entries
        ≡ put_staying number name.now (view value) (members_view members.old.entries)) }
    ensures digests { OnOk result (map string_bytes digests.new.items
        ≡ map string_bytes digests.old.items ++ with_digest by_sha256 number name.now (view value) []) }
    ensures made { OnOk result (all_made made.new.items
        ≡ all_made made.old.items ++ all_told (taken by_sha256 number (Some name.now) (view value))) }
    ensures read { IfOk result
        (λ _. AllByRecursion IsReadBack (taken by_sha256 number (Some name.now) (view value))) }
{
    let Some(number) = number else {
        put(members, alloc, name, value)?;
        return Ok(());
    };
    let disclosure = disclose(alloc, number, Some(name), value)?;
    digests.push(disclosure.digest.clone()?)?;
    made.push(disclosure)?;
    Ok(())
}

// The digests, where there are any, come to the members in the order of their bytes.
fn put_digests(
    alloc: Global,
    digests: Vec<String>,
    members: &mut Map<String, Value>,
) -> Result<(), NoMemory>
    ensures { OnOk result (members_view members.new.entries
        ≡ with_digests (map string_bytes digests.items) (members_view members.old.entries)) }
{
    if digests.is_empty() {
        return Ok(());
    }
    let list = text_values(alloc, sorted(digests)?)?;
    put(members, alloc, "_sd", Value::Array(list))?;
    Ok(())
}

fn sorted(digests: Vec<String>) -> Result<Vec<String>, NoMemory>
    ensures { IfOk result (λ v. map string_bytes v.items ≡ sorted (map string_bytes digests.items)) }
{
    let mut digests = digests;
    digests.sort()?;
    Ok(digests)
}

fn text_value(text: String) -> Value
    ensures { view result ≡ string (string_bytes text) }
{
    Value::String(text)
}

fn text_values(alloc: Global, list: Vec<String>) -> Result<Vec<Value>, NoMemory>
    ensures { IfOk result (λ v. items_view v.items ≡ texts (map string_bytes list.items)) }
{
    let mut values = Vec::with_capacity(alloc, list.len())?;
    for text in list {
        values.push(text_value(text))?;
    }
    Ok(values)
}
