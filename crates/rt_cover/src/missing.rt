//! Cells of rectangles that no strip of a mask covers.
ghost use Rattle.std.specs.Prelude.{◌+◌, ◌<◌, ◌^◌, length, map, IfOk, OnOk};
ghost use Rattle.rt_strips.specs.Placed.{placed, covered_by};
ghost use Rattle.rt_strips.specs.StripsOf.{AreStrips};
ghost use Rattle.rt_cover.specs.Covering.{AreMissing, AreNone};

use crate::across::look_across;
use crate::bars::bars_of;
use rt_base::{Cell, List, OutOfMemory, Rect};
use rt_strips::Strip;
use rt_sweep::Sweep;
use std::alloc::Global;

/// For each rectangle, in order, a cell of it that no strip of mask number `m` covers; None exactly where the mask's strips cover it whole. The
/// rectangles stand in any order and may overlap. The one error is a want of memory.
pub fn first_missing(
    alloc: Global,
    strips: &[Strip],
    m: u32,
    areas: &[Rect],
) -> Result<List<Option<Cell>>, OutOfMemory>
    requires few { length areas.now + length strips.now < 2 ^ 32 }
    requires strips { AreStrips (map placed strips.now) }
    ensures { IfOk result (AreMissing (covered_by m (map placed strips.now)) areas.now) }
{
    let mut found = none_yet(alloc, areas)?;
    look_up(alloc, strips, m, areas, found.as_mut_slice())?;
    Ok(List::of(found))
}

// No cell for any of the rectangles.
fn none_yet(alloc: Global, areas: &[Rect]) -> Result<Vec<Option<Cell>>, OutOfMemory>
    ensures { IfOk result (λ found. AreNone (length areas.now) found.items) }
{
    let mut found = Vec::new(alloc);
    for _area in areas {
        found.push(None)?;
    }
    Ok(found)
}

// Notes a missing cell for each rectangle that has one.
fn look_up(
    alloc: Global,
    strips: &[Strip],
    m: u32,
    areas: &[Rect],
    found: &mut [Option<Cell>],
) -> Result<(), OutOfMemory>
    requires few { length areas.now + length strips.now < 2 ^ 32 }
    requires strips { AreStrips (map placed strips.now) }
    requires none { AreNone (length areas.now) found.old }
    ensures { OnOk result (AreMissing (covered_by m (map placed strips.now)) areas.now found.new) }
{
    let bars = bars_of(alloc, strips, m, areas)?;
    let mut sweep = Sweep::new(alloc, bars)?;
    while let Some(slab) = sweep.next_slab()? {
        look_across(sweep.active(), areas.len() as u32, &slab, found);
    }
    Ok(())
}
