// Whether a path hits anything. It takes no memory.
ghost use Rattle.std.specs.Prelude.{◌≡◌, ◌↔◌, ◌<◌, List, [], ◌∷◌, length, IsTrue};
ghost use Rattle.std.specs.Option.{option_copied};
ghost use Rattle.claim_path.specs.Select.{Address, walk};
ghost use Rattle.claim_path.specs.Hits.{equals, is_match, hits};
ghost use Rattle.claim_path.specs.code.WalkEnd.{end_of, both_ends};

use crate::path::{Path, PathStep, Scalar, Values};
use claim_tree::{ClaimNode, ClaimView, Shape};

// How a walk along the rest of a path ends: an element of a wrong kind was met, or none that matches was
// selected, or one was.
#[derive(Clone, Copy, PartialEq, Eq, Debug)]
pub(crate) enum WalkEnd {
    Wrong,
    NoHit,
    Hit,
}

/// Whether `path` hits anything in the tree that stands at `view`: whether it selects an element that
/// equals one of `values`, or any element where there are none. It takes no memory.
pub fn has_hit<'a, V: ClaimView<'a>>(path: &Path, values: Option<&Values>, view: V) -> bool
    ensures { IsTrue result ↔ (0 < length (hits path.now (option_copied values.entry) (V.tree view))) }
{
    matches!(walk_end(path.steps.as_slice(), values, view), WalkEnd::Hit)
}

// How the walk along the rest of a path from one element ends.
fn walk_end<V: ClaimNode>(steps: &[PathStep], values: Option<&Values>, view: V) -> WalkEnd
    ensures { (a : Address) →
        result ≡ end_of (option_copied values.entry) (walk steps.now ((a, V.tree view) ∷ [])) }
{
    let Some((first, rest)) = steps.split_first() else {
        return if is_match(values, view) {
            WalkEnd::Hit
        } else {
            WalkEnd::NoHit
        };
    };
    match first {
        PathStep::Member(name) => match view.shape() {
            Shape::Record => match view.member(name.as_str()) {
                Some(part) => walk_end(rest, values, part),
                None => WalkEnd::NoHit,
            },
            _ => WalkEnd::Wrong,
        },
        PathStep::Every => match view.shape() {
            Shape::List => {
                let mut so_far = WalkEnd::NoHit;
                'parts: for i in 0..view.len() {
                    so_far = so_far.and(walk_end(rest, values, view.at(i)));
                }
                so_far
            }
            _ => WalkEnd::Wrong,
        },
        PathStep::Place(place) => match view.shape() {
            Shape::List => {
                if view.loose() {
                    WalkEnd::NoHit
                } else if *place < view.len() as u64 {
                    walk_end(rest, values, view.at(*place as usize))
                } else {
                    WalkEnd::NoHit
                }
            }
            _ => WalkEnd::Wrong,
        },
    }
}

impl WalkEnd {
    // The end of two walks together.
    fn and(self, other: WalkEnd) -> WalkEnd
        ensures { result ≡ both_ends self other }
    {
        match (self, other) {
            (WalkEnd::Wrong, _) | (_, WalkEnd::Wrong) => WalkEnd::Wrong,
            (WalkEnd::Hit, _) | (_, WalkEnd::Hit) => WalkEnd::Hit,
            _ => WalkEnd::NoHit,
        }
    }
}

// Whether the element is one of the values, or there are no values.
pub(crate) fn is_match<V: ClaimNode>(values: Option<&Values>, view: V) -> bool
    ensures { result ≡ is_match (option_copied values.entry) (V.tree view) }
{
    match values {
        None => true,
        Some(values) => values.members.iter().any(|value| is_equal(value, view)),
    }
}

// Whether the element is this value, in kind too.
fn is_equal<V: ClaimNode>(value: &Scalar, view: V) -> bool
    ensures { result ≡ equals value.now (V.tree view) }
{
    match value {
        Scalar::Text(text) => match view.text_ref() {
            Some(other) => text.as_str() == other,
            None => false,
        },
        Scalar::Whole(whole) => match view.whole() {
            Some(other) => *whole == other,
            None => false,
        },
        Scalar::Truth(truth) => match view.truth() {
            Some(other) => *truth == other,
            None => false,
        },
    }
}
