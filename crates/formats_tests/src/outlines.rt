// Claim trees as texts.
use claim_tree::{ClaimNode, Shape};
use std::fmt::Write;
use std::test::Fail;

// Writes a tree of at most `levels` levels: a list in brackets, after `~` where it is loose, and a record in
// braces, with a comma after each part. A star stands before a part that is held, and before a member's value
// its name, by which it is found.
pub fn write_tree<V: ClaimNode>(view: V, levels: usize, out: &mut String) -> Result<(), Fail> {
    let shape = view.shape();
    if levels == 0 || (shape != Shape::List && shape != Shape::Record) {
        return write_leaf(view, out);
    }
    out.push_str(opening(view))?;
    for i in 0..view.len() {
        if view.held_at(i) {
            out.push('*')?;
        }
        match shape {
            Shape::Record => {
                let name = view.name_ref(i);
                out.push_str(name)?;
                out.push(':')?;
                if let Some(member) = view.member(name) {
                    write_tree(member, levels - 1, out)?;
                }
            }
            _ => write_tree(view.at(i), levels - 1, out)?,
        }
        out.push(',')?;
    }
    out.push_str(closing(shape))?;
    Ok(())
}

fn opening<V: ClaimNode>(view: V) -> &'static str {
    if view.shape() == Shape::Record {
        "{"
    } else if view.loose() {
        "~["
    } else {
        "["
    }
}

fn closing(shape: Shape) -> &'static str {
    if shape == Shape::Record { "}" } else { "]" }
}

fn write_leaf<V: ClaimNode>(view: V, out: &mut String) -> Result<(), Fail> {
    if let Some(text) = view.text_ref() {
        write!(out, "\"{text}\"")?;
    } else if let Some(whole) = view.whole() {
        write!(out, "{whole}")?;
    } else if let Some(truth) = view.truth() {
        write!(out, "{truth}")?;
    } else {
        write!(out, "{:?}", view.shape())?;
    }
    Ok(())
}
