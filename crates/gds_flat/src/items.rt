//! The items of structures, in the order of the finish of a walk.
ghost use Rattle.std.specs.Prelude.{◌≡◌, [], ◌∷◌, ◌<◌, ◌^◌, Some, None, length, All, take, Contains, IfOk, OnOk};
ghost use Rattle.gds_flat.specs.Reach.{target as target_of, Shallow};
ghost use Rattle.gds_flat.specs.Elements.{Fine};
ghost use Rattle.gds_flat.specs.Refused.{elements_along};
ghost use Rattle.gds_flat.specs.Walking.{name_at, names_at};
ghost use Rattle.gds_flat.specs.Depths.{IsTree, PlaceOnly};
ghost use Rattle.gds_flat.specs.Items.{Pieces};
ghost use Rattle.gds_flat.specs.Drawn.{pieces_in, AreDrawable, HasCount, AreCounts, HasFew};
ghost use Rattle.gds_flat.specs.Building.{CanBeDrawn, CanBeListed, Appends, AreFrom, AreLists, IsListOf};

use crate::depths::rank_before;
use crate::item::Item;
use crate::names::Names;
use crate::orders::target;
use crate::own::push_own;
use crate::placing::push_placed;
use crate::walk::Walk;
use gds_stream::Element;
use rt_base::{List, OutOfMemory, Text};
use rt_tech::Tech;
use std::alloc::Global;

// The items of the top, in order. They are counted before they are placed.
pub(crate) fn items(
    alloc: Global,
    names: &Names,
    walk: &Walk,
    tech: &Tech,
    counts: &[u64],
) -> Result<List<Item>, OutOfMemory>
    requires tree { IsTree names.now.structures.now names.now.top.now walk.now }
    requires fine { All (Fine tech.now) (elements_along names.now.structures.now (names_at names.now.structures.now walk.now.order.items)) }
    requires drawable { AreDrawable names.now.structures.now }
    requires shallow { Shallow names.now.structures.now names.now.top.now }
    requires counts { AreCounts names.now.structures.now tech.now walk.now.finish.items counts.now }
    requires few { HasFew names.now.structures.now tech.now names.now.top.now }
    requires masks { length tech.now.masks < 2 ^ 32 }
    ensures pieces { IfOk result (λ list. Pieces names.now.structures.now tech.now names.now.top.now (pieces_in list)) }
    ensures masks { IfOk result (λ list. All (λ i. i.mask < length tech.now.masks) list) }
{
    let mut lists = lists(alloc, names, walk, tech, counts)?;
    let place = rank_before(names, walk, names.top, lists.len());
    Ok(lists.swap_remove(place))
}

// The items of each structure, in the order of the finish.
fn lists(
    alloc: Global,
    names: &Names,
    walk: &Walk,
    tech: &Tech,
    counts: &[u64],
) -> Result<Vec<List<Item>>, OutOfMemory>
    requires tree { IsTree names.now.structures.now names.now.top.now walk.now }
    requires fine { All (Fine tech.now) (elements_along names.now.structures.now (names_at names.now.structures.now walk.now.order.items)) }
    requires drawable { AreDrawable names.now.structures.now }
    requires shallow { Shallow names.now.structures.now names.now.top.now }
    requires counts { AreCounts names.now.structures.now tech.now walk.now.finish.items counts.now }
    requires masks { length tech.now.masks < 2 ^ 32 }
    ensures all { IfOk result (λ lists. length lists.items ≡ length walk.now.finish.items) }
    ensures are { IfOk result (λ lists. AreLists names.now.structures.now tech.now walk.now.finish.items lists.items) }
{
    let mut lists = Vec::new(alloc);
    for structure in &walk.finish {
        let count = counts[lists.len()];
        let list = list_at(alloc, names, walk, tech, *structure, count, &lists)?;
        lists.push(list)?;
    }
    Ok(lists)
}

// The items of a structure, which places what has its list. One that has none is passed over.
fn list_at(
    alloc: Global,
    names: &Names,
    walk: &Walk,
    tech: &Tech,
    structure: usize,
    count: u64,
    lists: &[List<Item>],
) -> Result<List<Item>, OutOfMemory>
    requires tree { IsTree names.now.structures.now names.now.top.now walk.now }
    requires masks { length tech.now.masks < 2 ^ 32 }
    requires lists { AreLists names.now.structures.now tech.now walk.now.finish.items lists.now }
    requires turn { CanBeListed names.now.structures.now tech.now walk.now.finish.items (length lists.now) structure }
    requires count { HasCount names.now.structures.now tech.now (name_at names.now.structures.now structure) count }
    ensures { IfOk result (λ list. IsListOf names.now.structures.now tech.now (name_at names.now.structures.now structure) (pieces_in list)) }
{
    if count == 0 {
        return Ok(List::new(alloc));
    }
    let elements = names.structures[structure].elements.as_slice();
    let list = list_of(alloc, names, walk, tech, elements, lists)?;
    Ok(list)
}

// The items of elements, which place what has its list.
fn list_of(
    alloc: Global,
    names: &Names,
    walk: &Walk,
    tech: &Tech,
    elements: &[Element],
    lists: &[List<Item>],
) -> Result<List<Item>, OutOfMemory>
    requires tree { IsTree names.now.structures.now names.now.top.now walk.now }
    requires masks { length tech.now.masks < 2 ^ 32 }
    requires lists { AreLists names.now.structures.now tech.now walk.now.finish.items lists.now }
    requires before { PlaceOnly names.now.structures.now walk.now.finish.items (length lists.now) elements.now }
    requires drawn { All (CanBeDrawn tech.now) elements.now }
    ensures { IfOk result (λ list. AreFrom names.now.structures.now tech.now elements.now (pieces_in list)) }
{
    let mut list = List::new(alloc);
    for element in elements {
        push_element(alloc, &mut list, names, walk, tech, element, lists)?;
    }
    Ok(list)
}

// Appends the items of an element.
fn push_element(
    alloc: Global,
    list: &mut List<Item>,
    names: &Names,
    walk: &Walk,
    tech: &Tech,
    element: &Element,
    lists: &[List<Item>],
) -> Result<(), OutOfMemory>
    requires tree { IsTree names.now.structures.now names.now.top.now walk.now }
    requires masks { length tech.now.masks < 2 ^ 32 }
    requires lists { AreLists names.now.structures.now tech.now walk.now.finish.items lists.now }
    requires before { PlaceOnly names.now.structures.now walk.now.finish.items (length lists.now) (element.now ∷ []) }
    requires drawn { CanBeDrawn tech.now element.now }
    ensures { OnOk result (Appends (AreFrom names.now.structures.now tech.now (element.now ∷ [])) list.old list.new) }
{
    match target(element) {
        Some(name) => push_reference(alloc, list, names, walk, tech, element, name, lists),
        None => push_own(alloc, list, tech, element),
    }
}

// Appends what a reference places.
fn push_reference(
    alloc: Global,
    list: &mut List<Item>,
    names: &Names,
    walk: &Walk,
    tech: &Tech,
    element: &Element,
    name: &Text,
    lists: &[List<Item>],
) -> Result<(), OutOfMemory>
    requires tree { IsTree names.now.structures.now names.now.top.now walk.now }
    requires lists { AreLists names.now.structures.now tech.now walk.now.finish.items lists.now }
    requires before { Contains (names_at names.now.structures.now (take (length lists.now) walk.now.finish.items)) name.now }
    requires target { target_of element.now ≡ Some name.now }
    requires fine { Fine tech.now element.now }
    ensures { OnOk result (Appends (AreFrom names.now.structures.now tech.now (element.now ∷ [])) list.old list.new) }
{
    let place = rank_before(names, walk, name, lists.len());
    let inner = lists[place].as_slice();
    if inner.is_empty() {
        return Ok(());
    }
    push_placed(alloc, list, element, inner)
}
