//! The names that the columns of one mask show.
ghost use Rattle.std.specs.Prelude.{◌≡◌, ◌<◌, ◌^◌, length, map, All, IfOk, OnOk};
ghost use Rattle.rt_strips.specs.Placed.{placed};
ghost use Rattle.rt_columns.specs.Adding.{Adds};
ghost use Rattle.rt_columns.specs.Bars.{IsBarOf};
ghost use Rattle.rt_columns.specs.Columns.{AreColumnBars, IsShownSomewhere};
ghost use Rattle.rt_columns.specs.Sides.{side_of, HaveSides, IsStripBar, IsBarAdded, ShowsBars};

use crate::slab::add_slab;
use rt_base::{List, OutOfMemory, Rect};
use rt_rows::Name;
use rt_strips::Strips;
use rt_sweep::{Bar, Sweep};
use std::alloc::Global;

/// Adds the names that the columns of the mask's strips show, where the left and the right side of each strip are told. The one error is a
/// want of memory.
pub(crate) fn add_mask(
    alloc: Global,
    strips: &Strips,
    lefts: &[i64],
    rights: &[i64],
    mask: u32,
    names: &mut List<Name>,
) -> Result<(), OutOfMemory>
    requires few { length strips.now.list < 2 ^ 32 }
    requires sides { HaveSides (length strips.now.list) lefts.now rights.now }
    ensures { OnOk result (Adds (IsShownSomewhere (map placed strips.now.list) (side_of lefts.now) (side_of rights.now) mask) names.old names.new) }
{
    let bars = bars_of(alloc, strips, lefts, rights, mask)?;
    let mut sweep = Sweep::new(alloc, bars)?;
    add_slabs(alloc, strips, &mut sweep, names)?;
    Ok(())
}

// Adds the names that the bars of a sweep show, slab by slab.
fn add_slabs(
    alloc: Global,
    strips: &Strips,
    sweep: &mut Sweep,
    names: &mut List<Name>,
) -> Result<(), OutOfMemory>
    requires bars { All (IsBarOf (map placed strips.now.list)) sweep.old.bars }
    ensures { OnOk result (ShowsBars (map placed strips.now.list) sweep.old.bars sweep.old.height names.old names.new) }
{
    let mut through = Vec::new(alloc);
    let mut reached = Vec::new(alloc);
    while let Some(slab) = sweep.next_slab()? {
        add_slab(
            strips,
            sweep.active(),
            &slab,
            &mut through,
            &mut reached,
            names,
        )?;
    }
    Ok(())
}

// The bars of the mask's strips.
fn bars_of(
    alloc: Global,
    strips: &Strips,
    lefts: &[i64],
    rights: &[i64],
    mask: u32,
) -> Result<Vec<Bar>, OutOfMemory>
    requires few { length strips.now.list < 2 ^ 32 }
    requires sides { HaveSides (length strips.now.list) lefts.now rights.now }
    ensures { IfOk result (λ bars. AreColumnBars (map placed strips.now.list) (side_of lefts.now) (side_of rights.now) mask bars.items) }
{
    let mut bars = Vec::new(alloc);
    for number in 0..strips.list.as_slice().len() {
        add_bar(&mut bars, strips, lefts, rights, mask, number)?;
    }
    Ok(bars)
}

// Appends the bar of a strip, if that is of the mask.
fn add_bar(
    bars: &mut Vec<Bar>,
    strips: &Strips,
    lefts: &[i64],
    rights: &[i64],
    mask: u32,
    number: usize,
) -> Result<(), OutOfMemory>
    requires few { length strips.now.list < 2 ^ 32 }
    requires sides { HaveSides (length strips.now.list) lefts.now rights.now }
    requires strip { number < length strips.now.list }
    ensures { OnOk result (IsBarAdded (map placed strips.now.list) (side_of lefts.now) (side_of rights.now) mask number bars.old.items bars.new.items) }
{
    if strips.list.as_slice()[number].mask == mask {
        bars.push(bar_of(strips, lefts, rights, number))?;
    }
    Ok(())
}

// The bar of a strip: its rows as columns, and the columns that it covers as rows.
fn bar_of(strips: &Strips, lefts: &[i64], rights: &[i64], number: usize) -> Bar
    requires few { length strips.now.list < 2 ^ 32 }
    requires sides { HaveSides (length strips.now.list) lefts.now rights.now }
    requires strip { number < length strips.now.list }
    ensures { IsStripBar (map placed strips.now.list) (side_of lefts.now) (side_of rights.now) number result }
{
    let rows = &strips.list.as_slice()[number].at;
    Bar {
        at: Rect {
            x1: rows.y1,
            y1: lefts[number],
            x2: rows.y2,
            y2: rights[number],
        },
        tag: number as u32,
    }
}
