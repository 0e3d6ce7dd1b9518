//! The strips of the cells of one mask, and of those that two masks both cover.
ghost use Rattle.std.specs.Prelude.{◌≡◌, ◌++◌, map, IfOk, OnOk};
ghost use Rattle.rt_base.specs.Plane.{area};
ghost use Rattle.rt_cells.specs.Rectangles.{Covers};
ghost use Rattle.rt_strips.specs.OneMask.{AreAllStrips, AreFirstStrips, BothCover};
ghost use Rattle.rt_strips.specs.Heights.{IsBarCell, IsBothBarCell, tagged_bar, pile_of, IsBuiltTo};

use common::both_pieces_of;
use parts::{PART, merged_by_parts};
use pieces::pieces_of;
use rt_base::{OutOfMemory, Rect};
use rt_sweep::{Bar, Sweep};
use stack::{Stack, empty_stack, put_on};
use std::alloc::Global;

mod common;
mod parts;
mod pieces;
mod stack;

/// The strips of what the rectangles cover, in order of bottom, then left. The rectangles stand in any order and may overlap. The one error
/// is a want of memory. (This project's own.)
pub fn strips_of_rects(alloc: Global, rects: &[Rect]) -> Result<Vec<Rect>, OutOfMemory>
    ensures { IfOk result (λ strips. AreAllStrips (Covers (map area rects.now)) (map area strips.items)) }
{
    let found = strips_within(alloc, rects, usize::MAX)?;
    Ok(found.strips)
}

/// The first strips of some cells, and how many strips those have. (This project's own.)
#[derive(Drop)]
pub(crate) struct Found {
    /// The strips that are kept, in order of bottom, then left.
    pub(crate) strips: Vec<Rect>,
    /// How many strips there are; 2^64 - 1 where there are more.
    pub(crate) count: u64,
}

/// The strips of what the rectangles cover, of which no more than `most` are kept, those that come first. Many rectangles are first made fewer
/// over each row, part by part. The one error is a want of memory.
pub(crate) fn strips_within(
    alloc: Global,
    rects: &[Rect],
    most: usize,
) -> Result<Found, OutOfMemory>
    ensures { IfOk result (λ found. AreFirstStrips (Covers (map area rects.now)) most (map area found.strips.items) found.count) }
{
    if rects.len() <= PART {
        return swept(alloc, rects, most);
    }
    let merged = merged_by_parts(alloc, rects)?;
    swept(alloc, merged.as_slice(), most)
}

// The same, in one sweep over all rectangles.
fn swept(alloc: Global, rects: &[Rect], most: usize) -> Result<Found, OutOfMemory>
    ensures { IfOk result (λ found. AreFirstStrips (Covers (map area rects.now)) most (map area found.strips.items) found.count) }
{
    let mut bars = Vec::new(alloc);
    add_bars(&mut bars, rects, 0)?;
    let mut sweep = Sweep::new(alloc, bars)?;
    let mut stack = empty_stack(alloc, most);
    stack_up(alloc, &mut sweep, &mut stack)?;
    Ok(stack.found)
}

// Appends the rectangles as bars with the tag.
fn add_bars(bars: &mut Vec<Bar>, rects: &[Rect], tag: u32) -> Result<(), OutOfMemory>
    ensures { OnOk result (bars.new.items ≡ bars.old.items ++ map (tagged_bar tag) rects.now) }
{
    for at in rects {
        bars.push(Bar { at: *at, tag })?;
    }
    Ok(())
}

// Puts the pieces of all slabs of the sweep's bars with tag 0 onto the strips found below them.
fn stack_up(alloc: Global, sweep: &mut Sweep, stack: &mut Stack) -> Result<(), OutOfMemory>
    requires { IsBuiltTo (IsBarCell sweep.old.bars 0) stack.old.most sweep.old.height (pile_of stack.old) }
    ensures { OnOk result (AreFirstStrips (IsBarCell sweep.old.bars 0) stack.old.most (map area stack.new.found.strips.items) stack.new.found.count) }
{
    let mut pieces = Vec::new(alloc);
    while let Some(slab) = sweep.next_slab()? {
        pieces_of(sweep.active(), 0, &slab, &mut pieces)?;
        put_on(stack, pieces.as_slice())?;
    }
    Ok(())
}

/// The strips of the cells that both lists of rectangles cover. The one error is a want of memory.
pub(crate) fn strips_of_both(
    alloc: Global,
    first: &[Rect],
    second: &[Rect],
) -> Result<Vec<Rect>, OutOfMemory>
    ensures { IfOk result (λ strips. AreAllStrips (BothCover (map area first.now) (map area second.now)) (map area strips.items)) }
{
    let mut bars = Vec::new(alloc);
    add_bars(&mut bars, first, 0)?;
    add_bars(&mut bars, second, 1)?;
    let mut sweep = Sweep::new(alloc, bars)?;
    let mut stack = empty_stack(alloc, usize::MAX);
    stack_both(alloc, &mut sweep, &mut stack)?;
    Ok(stack.found.strips)
}

// Puts the pieces that bars of both tags, 0 and 1, have in common, slab by slab, onto the strips found below them.
fn stack_both(alloc: Global, sweep: &mut Sweep, stack: &mut Stack) -> Result<(), OutOfMemory>
    requires { IsBuiltTo (IsBothBarCell sweep.old.bars) stack.old.most sweep.old.height (pile_of stack.old) }
    ensures { OnOk result (AreFirstStrips (IsBothBarCell sweep.old.bars) stack.old.most (map area stack.new.found.strips.items) stack.new.found.count) }
{
    let mut first = Vec::new(alloc);
    let mut second = Vec::new(alloc);
    let mut both = Vec::new(alloc);
    while let Some(slab) = sweep.next_slab()? {
        both_pieces_of(sweep.active(), &slab, &mut first, &mut second, &mut both)?;
        put_on(stack, both.as_slice())?;
    }
    Ok(())
}
