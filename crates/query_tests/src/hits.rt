// What paths hit in trees.
ghost use Rattle.std.specs.Prelude.{◌≡◌, true, IfOk};
ghost use Rattle.claim_tree.specs.Tree.{is_claim};
ghost use Rattle.owned_tree.specs.Owned.{tree_of};

use claim_path::{Path, Values, has_hit, hits};
use claim_tree::{Address, ClaimView, NoMemory, PlainTree, Step};
use owned_tree::{OwnedElement, OwnedNode, OwnedTree};
use serde_json::Value;
use std::alloc::Global;
use std::fmt::Write;
use std::rt::HostRuntime;
use std::test::Fail;

// The hits: the steps of each with a blank after each step, and then a comma.
pub(crate) fn listed(alloc: Global, found: &[Address]) -> Result<String, Fail> {
    let mut text = String::new(alloc);
    for address in found {
        for step in address.steps() {
            match step {
                Step::Name(name) => write!(text, "{} ", name.as_str())?,
                Step::Place(place) => write!(text, "{place} ")?,
            }
        }
        text.push(',')?;
    }
    Ok(text)
}

fn values_of(alloc: Global, text: &str) -> Result<Option<Values>, Fail> {
    if text.is_empty() {
        return Ok(None);
    }
    let value = Value::from_str(alloc, text)?;
    Ok(Some(Values::from_json(alloc, &value)?))
}

// Whether a path and values, none where their text is empty, hit what is wanted, and hit anything exactly
// where something is wanted.
fn is_hit<'a, V: ClaimView<'a>>(
    alloc: Global,
    path: &str,
    values: &str,
    view: V,
    wanted: &str,
) -> Result<bool, Fail> {
    let path = Value::from_str(alloc, path)?;
    let path = Path::from_json(alloc, &path)?;
    let values = values_of(alloc, values)?;
    let found = hits(alloc, &path, values.as_ref(), view)?;
    let any = has_hit(&path, values.as_ref(), view);
    let text = listed(alloc, &found)?;
    Ok(text.as_str() == wanted && any != wanted.is_empty())
}

// Each kind of step on each kind of element; then a step on several elements: those without the part drop
// out, and one of another kind makes the path wrong.
fn are_steps_followed(alloc: Global) -> Result<bool, Fail> {
    for (path, tree, wanted) in [
        (r#"["a"]"#, r#"{"b":1,"a":null}"#, "a ,"),
        (r#"["a"]"#, r#"{"aa":1,"A":1}"#, ""),
        (r#"["a"]"#, r#"["a"]"#, ""),
        (r#"["a"]"#, r#""a""#, ""),
        ("[null]", "[7,8]", "0 ,1 ,"),
        ("[null]", "[]", ""),
        ("[null]", r#"{"a":1}"#, ""),
        ("[null]", "1", ""),
        ("[0]", "[7,8]", "0 ,"),
        ("[1]", "[7,8]", "1 ,"),
        ("[2]", "[7,8]", ""),
        ("[0]", r#"{"0":1}"#, ""),
        ("[0]", "true", ""),
        (
            r#"[null,"b"]"#,
            r#"[{"b":1},{"c":2},{"b":3}]"#,
            "0 b ,2 b ,",
        ),
        (r#"[null,"b"]"#, r#"[{"b":1},2]"#, ""),
        (r#"[null,"b"]"#, r#"[{"c":1}]"#, ""),
        ("[null,1]", "[[1],[1,2],[]]", "1 1 ,"),
        ("[null,null]", "[[1,2],[],[3]]", "0 0 ,0 1 ,2 0 ,"),
        ("[null,null]", "[[],1]", ""),
    ] {
        let tree = PlainTree::read(alloc, tree)?;
        if !is_hit(alloc, path, "", tree.root(), wanted)? {
            return Ok(false);
        }
    }
    Ok(true)
}

// What of a list of each kind of element equals one of the values.
fn are_values_compared(alloc: Global) -> Result<bool, Fail> {
    let tree = r#"[1,"1",true,1.0,null,[1],{"a":1},-1,"",false,18446744073709551615]"#;
    let tree = PlainTree::read(alloc, tree)?;
    for (values, wanted) in [
        ("[1]", "0 ,"),
        (r#"["1"]"#, "1 ,"),
        ("[true]", "2 ,"),
        ("[-1]", "7 ,"),
        (r#"[""]"#, "8 ,"),
        ("[false]", "9 ,"),
        ("[18446744073709551615]", "10 ,"),
        (r#"[2,"a","11"]"#, ""),
        (r#"[false,"1",1,1]"#, "0 ,1 ,9 ,"),
    ] {
        if !is_hit(alloc, "[null]", values, tree.root(), wanted)? {
            return Ok(false);
        }
    }
    Ok(true)
}

// A list of one held element, which is loose.
fn loose_list(alloc: Global) -> Result<OwnedTree, NoMemory>
    ensures { IfOk result (λ t. is_claim (tree_of t) ≡ true) }
{
    let element = OwnedElement {
        held: true,
        tree: OwnedTree::Whole(7),
    };
    Ok(OwnedTree::List(true, Vec::from_array(alloc, [element])?))
}

fn are_loose_places_passed(alloc: Global) -> Result<bool, Fail> {
    let tree = loose_list(alloc)?;
    let root = OwnedNode::new(&tree);
    for (path, wanted) in [("[0]", ""), ("[null]", "0 ,"), (r#"["0"]"#, "")] {
        if !is_hit(alloc, path, "", root, wanted)? {
            return Ok(false);
        }
    }
    Ok(true)
}

#[test]
fn hits_are_found(rt: HostRuntime) -> Result<(), Fail> {
    let steps = are_steps_followed(rt.alloc())?;
    let values = are_values_compared(rt.alloc())?;
    let loose = are_loose_places_passed(rt.alloc())?;
    assert!(rt; steps && values && loose);
    Ok(())
}
