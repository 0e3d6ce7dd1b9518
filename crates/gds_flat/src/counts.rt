//! How many rectangles and labels structures give, before anything is placed.
ghost use Rattle.std.specs.Prelude.{◌≡◌, ◌≢◌, ◌*◌, None, [], ◌∷◌, unsigned_abs, length, take, All, Contains, IfOk};
ghost use Rattle.gds_flat.specs.Reach.{target as target_of};
ghost use Rattle.gds_flat.specs.Elements.{Fine, IsWhole};
ghost use Rattle.gds_flat.specs.Walking.{names_at};
ghost use Rattle.gds_flat.specs.Depths.{IsTree, PlaceOnly};
ghost use Rattle.gds_flat.specs.Refused.{elements_along};
ghost use Rattle.gds_flat.specs.Drawn.{IsDrawable, AreDrawable, HasCount, AreCounts};
ghost use Rattle.gds_flat.specs.Counting.{AreFirstCounts, HasCountOf, HasOwnCount, HasCountOn, IsPlacedTimes};

use crate::depths::rank_before;
use crate::ends::taken_end;
use crate::masks::mask_of;
use crate::names::Names;
use crate::orders::target;
use crate::walk::Walk;
use gds_slabs::{path_count, slab_count};
use gds_stream::Element;
use rt_base::{OutOfMemory, Text};
use rt_tech::Tech;
use std::alloc::Global;

// How many items each structure gives, in the order of the finish. A count of more than 2^64 - 1 is 2^64 - 1.
pub(crate) fn counts(
    alloc: Global,
    names: &Names,
    walk: &Walk,
    tech: &Tech,
) -> Result<Vec<u64>, OutOfMemory>
    requires tree { IsTree names.now.structures.now names.now.top.now walk.now }
    requires fine { All (Fine tech.now) (elements_along names.now.structures.now (names_at names.now.structures.now walk.now.order.items)) }
    requires drawable { AreDrawable names.now.structures.now }
    ensures { IfOk result (λ c. AreCounts names.now.structures.now tech.now walk.now.finish.items c.items) }
{
    let mut counts = Vec::new(alloc);
    for structure in &walk.finish {
        let elements = names.structures[*structure].elements.as_slice();
        let count = count_elements(alloc, names, walk, tech, elements, &counts)?;
        counts.push(count)?;
    }
    Ok(counts)
}

// How many items the elements give, with what they place, from the counts of what stands before their structure.
fn count_elements(
    alloc: Global,
    names: &Names,
    walk: &Walk,
    tech: &Tech,
    elements: &[Element],
    counts: &[u64],
) -> Result<u64, OutOfMemory>
    requires tree { IsTree names.now.structures.now names.now.top.now walk.now }
    requires counts { AreFirstCounts names.now.structures.now tech.now walk.now.finish.items counts.now }
    requires before { PlaceOnly names.now.structures.now walk.now.finish.items (length counts.now) elements.now }
    requires fine { All (Fine tech.now) elements.now }
    requires drawable { All IsDrawable elements.now }
    ensures { IfOk result (HasCountOf names.now.structures.now tech.now elements.now) }
{
    let mut total = 0u64;
    for element in elements {
        let count = count_element(alloc, names, walk, tech, element, counts)?;
        total = total.saturating_add(count);
    }
    Ok(total)
}

// How many items the element gives, with what it places.
fn count_element(
    alloc: Global,
    names: &Names,
    walk: &Walk,
    tech: &Tech,
    element: &Element,
    counts: &[u64],
) -> Result<u64, OutOfMemory>
    requires tree { IsTree names.now.structures.now names.now.top.now walk.now }
    requires counts { AreFirstCounts names.now.structures.now tech.now walk.now.finish.items counts.now }
    requires before { PlaceOnly names.now.structures.now walk.now.finish.items (length counts.now) (element.now ∷ []) }
    requires fine { Fine tech.now element.now }
    requires drawable { IsDrawable element.now }
    ensures { IfOk result (HasCountOf names.now.structures.now tech.now (element.now ∷ [])) }
{
    match target(element) {
        Some(name) => {
            let inner = count_named(names, walk, tech, name, counts);
            Ok(copies(element).saturating_mul(inner))
        }
        None => own_count(alloc, tech, element),
    }
}

// How many items the structure by this name gives.
fn count_named(names: &Names, walk: &Walk, tech: &Tech, name: &Text, counts: &[u64]) -> u64
    requires tree { IsTree names.now.structures.now names.now.top.now walk.now }
    requires counts { AreFirstCounts names.now.structures.now tech.now walk.now.finish.items counts.now }
    requires before { Contains (names_at names.now.structures.now (take (length counts.now) walk.now.finish.items)) name.now }
    ensures { HasCount names.now.structures.now tech.now name.now result }
{
    let place = rank_before(names, walk, name, counts.len());
    counts[place]
}

// How many times a reference places what it names.
fn copies(element: &Element) -> u64
    requires reference { target_of element.now ≢ None }
    requires whole { IsWhole element.now }
    ensures { IsPlacedTimes element.now result }
{
    match element {
        Element::Aref { columns, rows, .. } => array_count(columns, rows),
        _ => 1,
    }
}

// How many places an array of so many columns and rows has.
fn array_count(columns: &i16, rows: &i16) -> u64
    ensures { result ≡ unsigned_abs columns.now * unsigned_abs rows.now }
{
    u64::from(columns.unsigned_abs()) * u64::from(rows.unsigned_abs())
}

// How many items the element, which is no reference, gives.
fn own_count(alloc: Global, tech: &Tech, element: &Element) -> Result<u64, OutOfMemory>
    requires fine { Fine tech.now element.now }
    requires drawable { IsDrawable element.now }
    ensures { IfOk result (HasOwnCount tech.now element.now) }
{
    match mask_of(tech, element) {
        Some(_) => count_on(alloc, element),
        None => Ok(0),
    }
}

// How many items the element gives on any mask.
fn count_on(alloc: Global, element: &Element) -> Result<u64, OutOfMemory>
    requires whole { IsWhole element.now }
    requires drawable { IsDrawable element.now }
    ensures { IfOk result (HasCountOn element.now) }
{
    match element {
        Element::Boundary { points, .. } => {
            let count = slab_count(alloc, points.as_slice())?;
            Ok(count)
        }
        Element::Path {
            pathtype,
            points,
            ..
        } => {
            let end = taken_end(pathtype);
            Ok(path_count(points.as_slice(), end))
        }
        Element::Label { .. } => Ok(1),
        _ => Ok(0),
    }
}
