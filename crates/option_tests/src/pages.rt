// Pages of options, as their tokens.
ghost use Rattle.std.specs.Prelude.{◌<◌, ◌≤◌, IfSome};
ghost use Rattle.std.specs.Option.{option_copied};
ghost use Rattle.admitted_answers.specs.Admits.{Admits};

use dcql_query::{Answer, Fits, Query};
use option_list::{page, read_token, token};
use serde_json::Value;
use std::alloc::Global;
use std::rt::HostRuntime;
use std::test::Fail;

// One of the first two is to be answered, and one of the last two may be: six choices, with five unions.
const CHOICES: &str =
    r#"{"credentials":[{"id":"a","format":"x"},{"id":"b","format":"x"},{"id":"c","format":"x"}],"credential_sets":[{"options":[["a"],["b"]]},{"options":[["b"],["c"]],"required":false}]}"#;

// Two credential queries, both to be answered, the first of which takes several credentials.
const SEVERAL: &str =
    r#"{"credentials":[{"id":"m","format":"x","multiple":true},{"id":"n","format":"x"}]}"#;

pub(crate) fn query_of(alloc: Global, text: &str) -> Result<Query, Fail> {
    let value = Value::from_str(alloc, text)?;
    Ok(Query::from_json(alloc, &value)?)
}

fn fits_of_choices(alloc: Global) -> Result<Fits, Fail> {
    Ok(Fits::from_triples(alloc, &[(0, 0, 0), (1, 1, 0), (2, 2, 0)])?)
}

fn fits_of_several(alloc: Global) -> Result<Fits, Fail> {
    Ok(Fits::from_triples(
        alloc,
        &[(0, 0, 0), (0, 0, 1), (0, 2, 0), (1, 1, 0), (1, 2, 3)],
    )?)
}

// The tokens of a page, a blank after each, and whether it is the last.
fn page_text(
    alloc: Global,
    query: &Query,
    fits: &Fits,
    after: Option<&Answer>,
    count: u32,
) -> Result<String, Fail>
    requires admitted { IfSome (option_copied after) (Admits query.now fits.now) }
    requires some { 0 < count }
    requires few { count ≤ 1000 }
{
    let page = page(alloc, query, fits, after, count)?;
    let mut text = String::new(alloc);
    for i in 0..page.answers.len() {
        let token = token(alloc, query, page.answers.at(i))?;
        text.push_str(token.as_str())?;
        text.push_str(" ")?;
    }
    text.push_str(if page.end { "end" } else { "more" })?;
    Ok(text)
}

fn text_after(
    alloc: Global,
    query: &Query,
    fits: &Fits,
    after: &str,
    count: u32,
) -> Result<String, Fail>
    requires some { 0 < count }
    requires few { count ≤ 1000 }
{
    if after.is_empty() {
        return page_text(alloc, query, fits, None, count);
    }
    let answer = read_token(alloc, query, fits, after)?;
    page_text(alloc, query, fits, Some(&answer), count)
}

fn choices_are_listed_once(alloc: Global) -> Result<bool, Fail> {
    let query = query_of(alloc, CHOICES)?;
    let fits = fits_of_choices(alloc)?;
    let all = "a:0.0+b:1.0 a:0.0+c:2.0 a:0.0 b:1.0+c:2.0 b:1.0 end";
    let whole = text_after(alloc, &query, &fits, "", 20)?;
    let middle = text_after(alloc, &query, &fits, "a:0.0+c:2.0", 1)?;
    let last = text_after(alloc, &query, &fits, "b:1.0", 20)?;
    Ok(whole.as_str() == all && middle.as_str() == "a:0.0 more" && last.as_str() == "end")
}

fn several_are_listed(alloc: Global) -> Result<bool, Fail> {
    let query = query_of(alloc, SEVERAL)?;
    let fits = fits_of_several(alloc)?;
    let begin = "m:0.0+n:1.0 m:0.0+n:2.3 m:0.0,2.0+n:1.0 m:0.0,2.0+n:2.3 more";
    let rest =
        "m:0.1+n:1.0 m:0.1+n:2.3 m:0.1,2.0+n:1.0 m:0.1,2.0+n:2.3 m:2.0+n:1.0 m:2.0+n:2.3 end";
    let first = text_after(alloc, &query, &fits, "", 4)?;
    let later = text_after(alloc, &query, &fits, "m:0.0,2.0+n:2.3", 6)?;
    Ok(first.as_str() == begin && later.as_str() == rest)
}

#[test]
fn options_are_listed(rt: HostRuntime) -> Result<(), Fail> {
    let choices = choices_are_listed_once(rt.alloc())?;
    let several = several_are_listed(rt.alloc())?;
    assert!(rt; choices && several);
    Ok(())
}
