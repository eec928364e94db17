// Claim trees, and what a credential says beside its claims.
ghost use Rattle.std.specs.Prelude.{◌≡◌, true, IfOk};
ghost use Rattle.claim_tree.specs.Tree.{is_claim};
ghost use Rattle.owned_tree.specs.Owned.{tree_of};

use crate::told::{Call, are_told};
use claim_tree::{
    Address, ClaimNode, ClaimView, Error, Facts, Format, KeyName, Name, NoMemory, PlainTree, Shape,
    SignAlg, Step,
};
use owned_tree::{OwnedMember, OwnedNode, OwnedTree};
use std::alloc::Global;
use std::fmt::Write;
use std::test::Fail;

// The shape of the tree of a text, or the rule that the text breaks.
pub fn shape(alloc: Global, text: &str) -> Result<String, Fail> {
    match PlainTree::read(alloc, text) {
        Ok(tree) => Ok(format!(in alloc; "{:?}", tree.root().shape())?),
        Err(Error::Refused(rule)) => Ok(format!(in alloc; "refused {rule}")?),
        Err(error) => Err(error)?,
    }
}

// The parts of the tree of a text.
pub fn parts(alloc: Global, text: &str) -> Result<String, Fail> {
    let tree = PlainTree::read(alloc, text)?;
    outline(alloc, tree.root())
}

// The parts of a list or a record, in order: a star where one is held, its name, its shape.
fn outline<'a, V: ClaimView<'a>>(alloc: Global, view: V) -> Result<String, Fail> {
    let mut text = String::new(alloc);
    for i in 0..view.len() {
        let mark = if view.held_at(i) { "*" } else { "" };
        let name = match view.shape() {
            Shape::Record => view.name_at(i),
            _ => "",
        };
        let shape = view.at(i).shape();
        write!(text, "{mark}{name}:{shape:?} ")?;
    }
    Ok(text)
}

// The shape of a text of so many lists inside one another.
fn nested_shape(alloc: Global, levels: usize) -> Result<String, Fail> {
    let opened = "[".repeat(alloc, levels)?;
    let closed = "]".repeat(alloc, levels)?;
    let text = format!(in alloc; "{opened}{closed}")?;
    shape(alloc, &text)
}

fn is_nested_tree(alloc: Global, levels: usize, wanted: &str) -> Result<bool, Fail> {
    let shape = nested_shape(alloc, levels)?;
    Ok(shape.as_str() == wanted)
}

#[test]
fn reads_trees(rt: HostRuntime) -> Result<(), Fail> {
    let rows = [
        (Call::Shape, "{\"given_name\":null}", "Record"),
        (Call::Shape, "[1]", "List"),
        (Call::Shape, " \"x\" ", "Text"),
        (Call::Shape, "false", "Truth"),
        (Call::Shape, "null", "Null"),
        (Call::Shape, "18446744073709551615", "Whole"),
        (Call::Shape, "18446744073709551616", "Other"),
        (Call::Shape, "-9223372036854775808", "Whole"),
        (Call::Shape, "-9223372036854775809", "Other"),
        (Call::Shape, "-0", "Other"),
        (Call::Shape, "1.0", "Other"),
        (Call::Shape, "1e3", "Other"),
        (Call::Shape, "{", "refused 1"),
        (
            Call::Parts,
            "{\"b\":[],\"ab\":{},\"\":1,\"a\":\"x\",\"b\":null}",
            ":Whole a:Text ab:Record b:Null ",
        ),
        (
            Call::Parts,
            "[true,-1,0.5,[1],{\"a\":1}]",
            ":Truth :Whole :Other :List :Record ",
        ),
        (Call::Parts, "[]", ""),
        (Call::Parts, "\"ab\"", ""),
    ];
    let alloc = rt.alloc();
    assert!(rt; are_told(alloc, &rows)?);
    assert!(rt; is_nested_tree(alloc, 64, "List")?);
    assert!(rt; is_nested_tree(alloc, 65, "refused 1")?);
    Ok(())
}

// Names by their bytes.
fn names_are_ordered(alloc: Global) -> Result<bool, Fail> {
    let short = Name::new(alloc, "b")?;
    let long = Name::new(alloc, "ab")?;
    let accented = Name::new(alloc, "é")?;
    Ok(long < short && short < accented && short != long)
}

fn key_names_are_ordered(alloc: Global) -> Result<bool, Fail> {
    let issuer = KeyName::from_text(alloc, "kid:[]")?;
    let holder = KeyName::from_text(alloc, "jwk:{}")?;
    let again = KeyName::from_text(alloc, issuer.text())?;
    Ok(holder < issuer && holder != issuer && again == issuer)
}

// The address with one more step.
fn stepped(alloc: Global, address: &Address, step: Step) -> Result<Address, Fail> {
    let mut longer = address.copy(alloc)?;
    longer.push(step)?;
    Ok(longer)
}

// A tenth place after a ninth, a place after a name, and a last step that is taken off again.
fn addresses_are_ordered(alloc: Global) -> Result<bool, Fail> {
    let root = Address::root(alloc);
    let named = stepped(alloc, &root, Step::Name(Name::new(alloc, "a")?))?;
    let ninth = stepped(alloc, &named, Step::Place(9))?;
    let tenth = stepped(alloc, &named, Step::Place(10))?;
    let placed = stepped(alloc, &root, Step::Place(0))?;
    let ordered = root < named && named < ninth && ninth < tenth && tenth < placed;
    let mut shorter = tenth.copy(alloc)?;
    let (short, long) = (root.steps().len(), tenth.steps().len());
    if long > 0 {
        shorter.pop();
    }
    Ok(ordered && short == 0 && long == 2 && shorter == named && shorter != root)
}

fn is_named(algorithm: SignAlg, name: &str, number: i64) -> bool {
    algorithm.jose() == name && algorithm.cose() == number
}

// Valid from the second 10 on and, if it expires, before the second 20.
fn is_valid(alloc: Global, past: Option<u64>, now: u64) -> Result<bool, Fail> {
    let issuer = KeyName::from_text(alloc, "kid:[]")?;
    let facts = Facts {
        format: Format::SdJwt,
        kind: "",
        issuer: &issuer,
        holder: None,
        first: 10,
        past,
    };
    Ok(facts.is_in_date(now))
}

fn are_valid(alloc: Global, rows: &[(Option<u64>, u64, bool)]) -> Result<bool, Fail> {
    for (past, now, wanted) in rows {
        if is_valid(alloc, *past, *now)? != *wanted {
            return Ok(false);
        }
    }
    Ok(true)
}

#[test]
fn orders_and_names(rt: HostRuntime) -> Result<(), Fail> {
    let alloc = rt.alloc();
    assert!(rt; names_are_ordered(alloc)?);
    assert!(rt; key_names_are_ordered(alloc)?);
    assert!(rt; addresses_are_ordered(alloc)?);
    assert!(rt; is_named(SignAlg::Es256, "ES256", -7));
    assert!(rt; is_named(SignAlg::EdDsa, "EdDSA", -8));
    assert!(rt; is_named(SignAlg::Bench256, "BENCH256", -70256));
    Ok(())
}

#[test]
fn is_valid_from_first_and_before_past(rt: HostRuntime) -> Result<(), Fail> {
    let rows = [
        (Some(20), 9, false),
        (Some(20), 10, true),
        (Some(20), 19, true),
        (Some(20), 20, false),
        (None, 9, false),
        (None, u64::MAX, true),
    ];
    assert!(rt; are_valid(rt.alloc(), &rows)?);
    Ok(())
}

// A record with a held member of bytes, a member of no JSON kind and an integer.
fn record(alloc: Global) -> Result<OwnedTree, NoMemory>
    ensures { IfOk result (λ t. is_claim (tree_of t) ≡ true) }
{
    let bytes = OwnedMember {
        name: String::from_str(alloc, "a")?,
        held: true,
        tree: OwnedTree::Bytes(Vec::from_array(alloc, [7])?),
    };
    let other = OwnedMember {
        name: String::from_str(alloc, "ab")?,
        held: false,
        tree: OwnedTree::Other,
    };
    let whole = OwnedMember {
        name: String::from_str(alloc, "b")?,
        held: false,
        tree: OwnedTree::Whole(-3),
    };
    let members = Vec::from_array(alloc, [bytes, other, whole])?;
    Ok(OwnedTree::Record(members))
}

fn is_outlined(alloc: Global, root: OwnedNode, wanted: &str) -> Result<bool, Fail> {
    let parts = outline(alloc, root)?;
    Ok(parts.as_str() == wanted)
}

// Whether the member of each name has this shape.
fn has_members(root: OwnedNode, rows: &[(&str, Option<Shape>)]) -> bool {
    for (name, wanted) in rows {
        let shape = match root.member(name) {
            Some(member) => Some(member.shape()),
            None => None,
        };
        if shape != *wanted {
            return false;
        }
    }
    true
}

#[test]
fn shows_parts(rt: HostRuntime) -> Result<(), Fail> {
    let rows = [
        ("", None),
        ("a", Some(Shape::Bytes)),
        ("ab", Some(Shape::Other)),
        ("b", Some(Shape::Whole)),
        ("c", None),
    ];
    let tree = record(rt.alloc())?;
    let root = OwnedNode::new(&tree);
    assert!(rt; is_outlined(rt.alloc(), root, "*a:Bytes ab:Other b:Whole ")?);
    assert!(rt; has_members(root, &rows));
    Ok(())
}
