//! How deep structures are placed in one another.
ghost use Rattle.std.specs.Prelude.{◌≡◌, ◌<◌, ◌≤◌, [], ◌∷◌, None, Some, length, take, Contains, IfOk, MatchOption};
ghost use Rattle.gds_flat.specs.Reach.{place_named};
ghost use Rattle.gds_flat.specs.Walking.{names_at, AreMarked};
ghost use Rattle.gds_flat.specs.Depths.{IsTree, IsRankOf, PlaceOnly, IsDepthOf, AreDepths, IsDeepest};

use crate::names::Names;
use crate::orders::{find, target};
use crate::walk::{Mark, Walk};
use gds_stream::Element;
use rt_base::{OutOfMemory, Text};
use std::alloc::Global;

// The place in the finish of the structure by this name.
pub(crate) fn rank(names: &Names, walk: &Walk, name: &Text) -> Option<usize>
    requires { AreMarked names.now.structures.now [] walk.now.marks.items walk.now.order.items walk.now.finish.items }
    ensures { MatchOption result (¬ Contains (names_at names.now.structures.now walk.now.finish.items) name.now)
        (IsRankOf names.now.structures.now walk.now.finish.items name.now) }
{
    match find(names, name) {
        Some(structure) => rank_of(names, walk, name, structure),
        None => None,
    }
}

// The place in the finish of the structure, which is that of the name.
fn rank_of(names: &Names, walk: &Walk, name: &Text, structure: usize) -> Option<usize>
    requires marked { AreMarked names.now.structures.now [] walk.now.marks.items walk.now.order.items walk.now.finish.items }
    requires named { place_named name.now names.now.structures.now ≡ Some structure }
    ensures { MatchOption result (¬ Contains (names_at names.now.structures.now walk.now.finish.items) name.now)
        (IsRankOf names.now.structures.now walk.now.finish.items name.now) }
{
    match walk.marks[structure] {
        Mark::Unseen => None,
        Mark::Open(_) => None,
        Mark::Done(place) => Some(place),
    }
}

// How many structures a chain from each structure has at most, in the order of the finish.
pub(crate) fn depths(alloc: Global, names: &Names, walk: &Walk) -> Result<Vec<usize>, OutOfMemory>
    requires { IsTree names.now.structures.now names.now.top.now walk.now }
    ensures all { IfOk result (λ d. length d.items ≡ length walk.now.finish.items) }
    ensures depths { IfOk result (λ d. AreDepths names.now.structures.now walk.now.finish.items d.items) }
{
    let mut depths = Vec::new(alloc);
    for structure in &walk.finish {
        let elements = names.structures[*structure].elements.as_slice();
        let depth = deepest(names, walk, elements, &depths);
        depths.push(depth + 1)?;
    }
    Ok(depths)
}

// The greatest depth of what the elements place.
fn deepest(names: &Names, walk: &Walk, elements: &[Element], depths: &[usize]) -> usize
    requires tree { IsTree names.now.structures.now names.now.top.now walk.now }
    requires depths { AreDepths names.now.structures.now walk.now.finish.items depths.now }
    requires before { PlaceOnly names.now.structures.now walk.now.finish.items (length depths.now) elements.now }
    ensures small { result ≤ length depths.now }
    ensures deepest { IsDeepest names.now.structures.now elements.now result }
{
    let mut most = 0usize;
    for element in elements {
        most = most.max(depth_of(names, walk, element, depths));
    }
    most
}

// The depth of what the element places, 0 if it is no reference.
fn depth_of(names: &Names, walk: &Walk, element: &Element, depths: &[usize]) -> usize
    requires tree { IsTree names.now.structures.now names.now.top.now walk.now }
    requires depths { AreDepths names.now.structures.now walk.now.finish.items depths.now }
    requires before { PlaceOnly names.now.structures.now walk.now.finish.items (length depths.now) (element.now ∷ []) }
    ensures small { result ≤ length depths.now }
    ensures deepest { IsDeepest names.now.structures.now (element.now ∷ []) result }
{
    match target(element) {
        Some(name) => depth_named(names, walk, name, depths),
        None => 0,
    }
}

// The depth of the structure by this name.
fn depth_named(names: &Names, walk: &Walk, name: &Text, depths: &[usize]) -> usize
    requires tree { IsTree names.now.structures.now names.now.top.now walk.now }
    requires depths { AreDepths names.now.structures.now walk.now.finish.items depths.now }
    requires before { Contains (names_at names.now.structures.now (take (length depths.now) walk.now.finish.items)) name.now }
    ensures small { result ≤ length depths.now }
    ensures depth { IsDepthOf names.now.structures.now name.now result }
{
    let place = rank_before(names, walk, name, depths.len());
    depths[place]
}

// The place in the finish of the structure by this name, which is among the first so many.
pub(crate) fn rank_before(names: &Names, walk: &Walk, name: &Text, count: usize) -> usize
    requires tree { IsTree names.now.structures.now names.now.top.now walk.now }
    requires before { Contains (names_at names.now.structures.now (take count walk.now.finish.items)) name.now }
    ensures below { result < count }
    ensures rank { IsRankOf names.now.structures.now walk.now.finish.items name.now result }
{
    match rank(names, walk, name) {
        Some(place) => place,
        None => unreachable!(),
    }
}
