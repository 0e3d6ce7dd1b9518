//! Flattening: a structure as a flat layout, or why it isn't one.
ghost use Rattle.std.specs.Prelude.{◌^◌, ◌<◌, length, All, IfErr, IfOk};
ghost use Rattle.gds_flat.specs.Drawn.{pieces_in, AreDrawable};
ghost use Rattle.gds_flat.specs.Refused.{IsFlattened, FlatRefused};
ghost use Rattle.gds_flat.specs.Drawings.{AreFewPieces, IsAcceptedWalk};

use crate::acceptance::accepted;
use crate::counts::counts;
use crate::depths::rank_before;
use crate::drawing::{drawn, first_far};
use crate::error::FlatError;
use crate::item::Item;
use crate::items::items;
use crate::limits::MOST_ITEMS;
use crate::names::Names;
use crate::orders::names;
use crate::walk::Walk;
use gds_stream::Library;
use rt_base::Text;
use rt_layout::Layout;
use rt_tech::Tech;
use std::alloc::Global;

/// The structure by the name as a flat layout in source database units: each mask of the table covers the cells that the
/// structure and all that it places cover there, and the labels come in the stream's order, with what a reference places at
/// its place. Elements that the table passes over give nothing. A polygon becomes rectangles between adjacent heights of its
/// points, and a path the rectangles of its segments and the squares at its points. (GDSII Release 6 for what elements and
/// references mean.)
///
/// The refusals come in this order, whatever else is at fault:
/// - `NoSuchStructure`, for the top's name first and then by a walk that takes what a structure places in the stream's order and
///   walks each structure as it is reached;
/// - `Cyclic`;
/// - `TooDeep`, for a chain of more than 64 structures;
/// - `UnmappedLayer`, `Unsupported` and `ArrayStep`, for the elements in the stream's order over the structures as they were
///   reached. An element that the table passes over isn't tested, nor is a structure that isn't reached;
/// - `TooMany`, for more than 50,000 rectangles and labels;
/// - `CoordinateRange`, for the first of them, in the stream's order, that comes to a coordinate beyond 1,000,000,000 database
///   units either way.
///
/// `OutOfMemory` may come at any time. (The order and the limits are this project's own.)
pub fn flatten(
    alloc: Global,
    library: &Library,
    top: &Text,
    tech: &Tech,
) -> Result<Layout, FlatError>
    requires drawable { AreDrawable library.now.structures }
    requires masks { length tech.now.masks < 2 ^ 32 }
    ensures ok { IfOk result (IsFlattened library.now.structures top.now tech.now) }
    ensures err { IfErr result (FlatRefused library.now.structures top.now tech.now) }
{
    let names = names(alloc, library.structures.as_slice(), top)?;
    flatten_names(alloc, &names, tech)
}

// The top as a flat layout.
fn flatten_names(alloc: Global, names: &Names, tech: &Tech) -> Result<Layout, FlatError>
    requires drawable { AreDrawable names.now.structures.now }
    requires masks { length tech.now.masks < 2 ^ 32 }
    ensures ok { IfOk result (IsFlattened names.now.structures.now names.now.top.now tech.now) }
    ensures err { IfErr result (FlatRefused names.now.structures.now names.now.top.now tech.now) }
{
    let walk = accepted(alloc, names, tech)?;
    flatten_walk(alloc, names, &walk, tech)
}

// The top as a flat layout, by a walk that is accepted.
fn flatten_walk(alloc: Global, names: &Names, walk: &Walk, tech: &Tech) -> Result<Layout, FlatError>
    requires walk { IsAcceptedWalk names.now.structures.now names.now.top.now tech.now walk.now }
    requires drawable { AreDrawable names.now.structures.now }
    requires masks { length tech.now.masks < 2 ^ 32 }
    ensures ok { IfOk result (IsFlattened names.now.structures.now names.now.top.now tech.now) }
    ensures err { IfErr result (FlatRefused names.now.structures.now names.now.top.now tech.now) }
{
    let counts = counts(alloc, names, walk, tech)?;
    let place = rank_before(names, walk, names.top, counts.len());
    let count = counts[place];
    if count > MOST_ITEMS {
        return Err(FlatError::TooMany { count });
    }
    let items = items(alloc, names, walk, tech, &counts)?;
    flatten_items(alloc, names, tech, items.as_slice())
}

// The top as a flat layout, by its items.
fn flatten_items(
    alloc: Global,
    names: &Names,
    tech: &Tech,
    items: &[Item],
) -> Result<Layout, FlatError>
    requires few { AreFewPieces names.now.structures.now names.now.top.now tech.now (pieces_in items.now) }
    requires drawable { AreDrawable names.now.structures.now }
    requires masks { All (λ i. i.mask < length tech.now.masks) items.now }
    ensures ok { IfOk result (IsFlattened names.now.structures.now names.now.top.now tech.now) }
    ensures err { IfErr result (FlatRefused names.now.structures.now names.now.top.now tech.now) }
{
    if let Some(offset) = first_far(items) {
        return Err(FlatError::CoordinateRange { offset });
    }
    let layout = drawn(alloc, items, tech.masks.as_slice().len())?;
    Ok(layout)
}
