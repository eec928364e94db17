// The addresses that a path hits.
ghost use Rattle.std.specs.Prelude.{◌≡◌, [], ◌∷◌, ◌++◌, IfOk, IfErr, OnOk};
ghost use Rattle.std.specs.Option.{option_copied};
ghost use Rattle.std.specs.List.Sorted.{IsStrictlySortedBy};
ghost use Rattle.claim_tree.specs.Order.{address_cmp};
ghost use Rattle.claim_tree.specs.Tree.{parts};
ghost use Rattle.claim_path.specs.Select.{walk, spots_from};
ghost use Rattle.claim_path.specs.Hits.{hits as hits_of};
ghost use Rattle.claim_path.specs.code.AddedHits.{AddsHits};

use crate::any_hit::is_match;
use crate::error::NoMemory;
use crate::path::{Path, PathStep, Values};
use claim_tree::{Address, ClaimNode, ClaimView, Shape, Step};
use std::alloc::Global;

/// The addresses of what `path` hits in the tree that stands at `view`, each once, in ascending
/// order: of the elements that it selects those that equal one of `values`, or all of them.
pub fn hits<'a, V: ClaimView<'a>>(
    alloc: Global,
    path: &Path,
    values: Option<&Values>,
    view: V,
) -> Result<Vec<Address>, NoMemory>
    ensures exact { IfOk result (λ v.
        v.items ≡ hits_of path.now (option_copied values.entry) (V.tree view)) }
    ensures ascending { IfOk result (λ v. IsStrictlySortedBy address_cmp v.items) }
{
    let found = find_hits(alloc, path, values, view)?;
    Ok(found)
}

// The hits, found by a walk along the path.
fn find_hits<V: ClaimNode>(
    alloc: Global,
    path: &Path,
    values: Option<&Values>,
    view: V,
) -> Result<Vec<Address>, NoMemory>
    ensures { IfOk result (λ v. v.items ≡ hits_of path.now (option_copied values.entry) (V.tree view)) }
{
    let mut found = Vec::new(alloc);
    let mut here = Address::root(alloc);
    if add_hits(
        alloc,
        path.steps.as_slice(),
        values,
        view,
        &mut here,
        &mut found,
    )? {
        Ok(found)
    } else {
        Ok(Vec::new(alloc))
    }
}

// Adds what the rest of a path hits from the element at `here`, or finds the path wrong there.
#[cycle(add_hits)]
fn add_hits<V: ClaimNode>(
    alloc: Global,
    steps: &[PathStep],
    values: Option<&Values>,
    view: V,
    here: &mut Address,
    found: &mut Vec<Address>,
) -> Result<bool, NoMemory>
    ensures back { OnOk result (here.new ≡ here.old) }
    ensures added { IfOk result (λ right. AddsHits (option_copied values.entry)
        (walk steps.now ((here.old, V.tree view) ∷ [])) right found.old.items found.new.items) }
{
    let Some((first, rest)) = steps.split_first() else {
        if is_match(values, view) {
            found.push(here.copy(alloc)?)?;
        }
        return Ok(true);
    };
    match first {
        PathStep::Member(name) => match view.shape() {
            Shape::Record => match view.member(name.as_str()) {
                Some(part) => {
                    here.push(Step::Name(name.copy(alloc)?))?;
                    let right = add_hits(alloc, rest, values, part, here, found)?;
                    here.pop();
                    Ok(right)
                }
                None => Ok(true),
            },
            _ => Ok(false),
        },
        PathStep::Every => match view.shape() {
            Shape::List => add_hits_of_parts(alloc, rest, values, view, here, found),
            _ => Ok(false),
        },
        PathStep::Place(place) => match view.shape() {
            Shape::List => {
                if view.loose() {
                    Ok(true)
                } else if *place < view.len() as u64 {
                    here.push(Step::Place(*place))?;
                    let part = view.at(*place as usize);
                    let right = add_hits(alloc, rest, values, part, here, found)?;
                    here.pop();
                    Ok(right)
                } else {
                    Ok(true)
                }
            }
            _ => Ok(false),
        },
    }
}

// Adds what the steps hit from each part of the list at `here`, or finds the path wrong there.
#[cycle(add_hits)]
fn add_hits_of_parts<V: ClaimNode>(
    alloc: Global,
    steps: &[PathStep],
    values: Option<&Values>,
    view: V,
    here: &mut Address,
    found: &mut Vec<Address>,
) -> Result<bool, NoMemory>
    ensures back { OnOk result (here.new ≡ here.old) }
    ensures added { IfOk result (λ right. AddsHits (option_copied values.entry)
        (walk steps.now (spots_from here.old 0 (parts (V.tree view)))) right found.old.items
        found.new.items) }
{
    for i in 0..view.len() {
        here.push(Step::Place(i as u64))?;
        let right = add_hits(alloc, steps, values, view.at(i), here, found)?;
        here.pop();
        if !right {
            return Ok(false);
        }
    }
    Ok(true)
}
