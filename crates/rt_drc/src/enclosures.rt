//! The search for what breaks a rule of enclosure.
ghost use Rattle.std.specs.Prelude.{◌≡◌, ◌+ℤ◌, ◌≤ℤ◌, length, map, IfOk, MatchOption};
ghost use Rattle.rt_base.specs.Plane.{area};
ghost use Rattle.rt_tech.specs.Tech.{IsReach};
ghost use Rattle.rt_rules.specs.Cuts.{KeepsEnclosed};
ghost use Rattle.rt_strips.specs.Placed.{placed, covered_by};
ghost use Rattle.rt_strips.specs.StripsOf.{AreStrips};
ghost use Rattle.rt_cover.specs.Covering.{AreMissing};
ghost use Rattle.rt_cuts.specs.Cuts.{grown};
ghost use Rattle.rt_pieces.specs.Members.{held_by};
ghost use Rattle.rt_drc.specs.Nearness.{farthest};
ghost use Rattle.rt_drc.specs.Counting.{counted_cells, LieIn};
ghost use Rattle.rt_drc.specs.Enclosing.{HasRoom, HaveRoom, IsBeyond, IsSeenBeyond, ShowsBeyond, IsGrownRect, AreGrownOf, AreWhole, ShowsBare, ShowsEnclosure};

use crate::beside::seen_from;
use crate::counting::{Counted, counts};
use crate::near::FARTHEST;
use crate::rows::Witness;
use rt_base::{Cell, List, OutOfMemory, Rect};
use rt_cover::first_missing;
use rt_strips::Strip;
use std::alloc::Global;

/// A cell that mask number `mask` doesn't cover, within the number of a cell of the counted strips, if there is one. What these cover lies in the mask.
/// The one error is a want of memory, which is also said of strips that 32 bits don't number twice over. (This project's own.)
pub fn enclosure_breach(
    alloc: Global,
    strips: &[Strip],
    counted: &Counted<'_>,
    mask: u32,
    number: &i64,
) -> Result<Option<Witness>, OutOfMemory>
    requires strips { AreStrips (map placed strips.now) }
    requires lowers { length counted.now.lowers.now ≡ length strips.now }
    requires number { IsReach number.now }
    requires inside { LieIn counted.now mask strips.now }
    ensures { IfOk result (λ found. MatchOption found
        (KeepsEnclosed number.now (counted_cells counted.now strips.now) (held_by mask strips.now))
        (ShowsEnclosure number.now (counted_cells counted.now strips.now) (held_by mask strips.now))) }
{
    if let Some(witness) = first_beyond(strips, counted, number) {
        return Ok(Some(witness));
    }
    let areas = grown_areas(alloc, strips, counted, number)?;
    let missing = missing_cells(alloc, strips, mask, areas.as_slice())?;
    Ok(first_bare(
        strips,
        counted,
        mask,
        number,
        areas.as_slice(),
        missing.as_slice(),
    ))
}

// A cell at which no rectangle has one, in a counted strip that is grown by the number, if there is one.
fn first_beyond(strips: &[Strip], counted: &Counted<'_>, number: &i64) -> Option<Witness>
    requires lowers { length counted.now.lowers.now ≡ length strips.now }
    requires number { IsReach number.now }
    ensures { MatchOption result (HaveRoom counted.now (map placed strips.now) number.now) (ShowsBeyond counted.now (map placed strips.now) number.now) }
{
    for i in 0..strips.len() {
        if counts(strips, i, counted) {
            if let Some(witness) = seen_beyond(&strips[i].at, number) {
                return Some(witness);
            }
        }
    }
    None
}

// The same of one rectangle.
fn seen_beyond(at: &Rect, number: &i64) -> Option<Witness>
    requires { IsReach number.now }
    ensures { MatchOption result (HasRoom number.now (area at.now)) (IsSeenBeyond number.now (area at.now)) }
{
    match cell_beyond(at, number) {
        Some(cell) => Some(seen_from(at, &cell)),
        None => None,
    }
}

// A cell of the rectangle grown by the number, in a column or a row in which no rectangle has a cell, if the grown one reaches that far.
fn cell_beyond(at: &Rect, number: &i64) -> Option<Cell>
    requires { IsReach number.now }
    ensures { MatchOption result (HasRoom number.now (area at.now)) (IsBeyond number.now (area at.now)) }
{
    if at.x2 > FARTHEST - *number {
        Some(Cell {
            x: FARTHEST,
            y: at.y1,
        })
    } else if at.y2 > FARTHEST - *number {
        Some(Cell {
            x: at.x1,
            y: FARTHEST,
        })
    } else {
        cell_before(at, number)
    }
}

// The same to the left and below.
fn cell_before(at: &Rect, number: &i64) -> Option<Cell>
    requires number { IsReach number.now }
    requires right { (at.now.x2 +ℤ number.now) ≤ℤ farthest }
    requires top { (at.now.y2 +ℤ number.now) ≤ℤ farthest }
    ensures { MatchOption result (HasRoom number.now (area at.now)) (IsBeyond number.now (area at.now)) }
{
    if at.x1 < *number - FARTHEST {
        Some(Cell {
            x: -FARTHEST - 1,
            y: at.y1,
        })
    } else if at.y1 < *number - FARTHEST {
        Some(Cell {
            x: at.x1,
            y: -FARTHEST - 1,
        })
    } else {
        None
    }
}

// The counted strips, grown by the number on all sides.
fn grown_areas(
    alloc: Global,
    strips: &[Strip],
    counted: &Counted<'_>,
    number: &i64,
) -> Result<Vec<Rect>, OutOfMemory>
    requires lowers { length counted.now.lowers.now ≡ length strips.now }
    requires number { IsReach number.now }
    requires room { HaveRoom counted.now (map placed strips.now) number.now }
    ensures { IfOk result (λ areas. AreGrownOf counted.now (map placed strips.now) number.now (length strips.now) areas.items) }
{
    let mut areas = Vec::new(alloc);
    for i in 0..strips.len() {
        if counts(strips, i, counted) {
            areas.push(grown_around(&strips[i].at, number))?;
        }
    }
    Ok(areas)
}

// The rectangle with so many more columns and rows on each side.
fn grown_around(at: &Rect, number: &i64) -> Rect
    requires number { IsReach number.now }
    requires room { HasRoom number.now (area at.now) }
    ensures { area result ≡ grown number.now (area at.now) }
{
    Rect {
        x1: at.x1 - *number,
        y1: at.y1 - *number,
        x2: at.x2 + *number,
        y2: at.y2 + *number,
    }
}

// The rectangle that was grown by the number.
fn shrunk(at: &Rect, number: &i64) -> Rect
    requires number { IsReach number.now }
    requires grown { IsGrownRect number.now at.now }
    ensures { grown number.now (area result) ≡ area at.now }
{
    Rect {
        x1: at.x1 + *number,
        y1: at.y1 + *number,
        x2: at.x2 - *number,
        y2: at.y2 - *number,
    }
}

// For each rectangle a cell that the mask doesn't cover. Where 32 bits don't number rectangles and strips together, it is said that there is no memory.
fn missing_cells(
    alloc: Global,
    strips: &[Strip],
    mask: u32,
    areas: &[Rect],
) -> Result<List<Option<Cell>>, OutOfMemory>
    requires { AreStrips (map placed strips.now) }
    ensures { IfOk result (AreMissing (covered_by mask (map placed strips.now)) areas.now) }
{
    if areas.len() + strips.len() > u32::MAX as usize {
        return Err(OutOfMemory);
    }
    first_missing(alloc, strips, mask, areas)
}

// The first of the grown strips that the mask doesn't cover whole: a missing cell of it, and the cell of the strip that is nearest to that.
fn first_bare(
    strips: &[Strip],
    counted: &Counted<'_>,
    mask: u32,
    number: &i64,
    areas: &[Rect],
    missing: &[Option<Cell>],
) -> Option<Witness>
    requires number { IsReach number.now }
    requires areas { AreGrownOf counted.now (map placed strips.now) number.now (length strips.now) areas.now }
    requires missing { AreMissing (covered_by mask (map placed strips.now)) areas.now missing.now }
    ensures { MatchOption result
        (AreWhole counted.now (map placed strips.now) number.now (covered_by mask (map placed strips.now)))
        (ShowsBare counted.now (map placed strips.now) number.now (covered_by mask (map placed strips.now))) }
{
    for i in 0..areas.len() {
        if let Some(cell) = missing[i] {
            return Some(seen_from(&shrunk(&areas[i], number), &cell));
        }
    }
    None
}
