//! Gaps of rows that are too narrow.
ghost use Rattle.std.specs.Prelude.{◌≡◌, ◌<◌, ◌^◌, pos, ◌-ℤ◌, ◌≤ℤ◌, length, map, IfOk, MatchOption, MatchBool};
ghost use Rattle.std.specs.Int.{int_max};
ghost use Rattle.rt_base.specs.Plane.{IsSide};
ghost use Rattle.rt_rules.specs.Space.{KeepsGapsAlongRows};
ghost use Rattle.rt_strips.specs.Placed.{placed};
ghost use Rattle.rt_pieces.specs.Members.{AreOfFamily, held_by};
ghost use Rattle.rt_drc.specs.Cornering.{IsShownAt};
ghost use Rattle.rt_drc.specs.Following.{BeginsAfter, ComesSooner, ComesNoSooner, IsAfter, IsNextBefore, Follows, AreNeighbours, ShowsGap};

use crate::near::{Pair, first_near};
use crate::reach::Reach;
use crate::rows::Witness;
use rt_base::{Cell, OutOfMemory, Rect};
use rt_pieces::own_numbers;
use rt_strips::Strip;
use std::alloc::Global;

/// A gap of fewer cells than the reach between two runs of a row of mask number `m`, if there is one. The one error is a want of memory.
pub(crate) fn narrow_gap(
    alloc: Global,
    strips: &[Strip],
    m: u32,
    reach: &Reach,
) -> Result<Option<Witness>, OutOfMemory>
    requires few { length strips.now < 2 ^ 32 }
    requires across { pos 1 ≤ℤ reach.now.across }
    requires upwards { reach.now.upwards ≡ pos 0 }
    requires family { AreOfFamily m strips.now }
    ensures { IfOk result (λ found. MatchOption found
        (KeepsGapsAlongRows reach.now.across (held_by m strips.now))
        (ShowsGap reach.now.across (held_by m strips.now))) }
{
    let own = own_numbers(alloc, strips.len())?;
    match first_near(alloc, strips, m, own.as_slice(), reach)? {
        Some(pair) => Ok(Some(gap_of(strips, m, reach, &pair))),
        None => Ok(None),
    }
}

// The gap behind the one of two strips that the other one follows.
fn gap_of(strips: &[Strip], m: u32, reach: &Reach, pair: &Pair) -> Witness
    requires family { AreOfFamily m strips.now }
    requires pair { AreNeighbours m reach.now.across (map placed strips.now) pair.now.first pair.now.second }
    ensures { ShowsGap reach.now.across (held_by m strips.now) result }
{
    if strips[pair.first as usize].at.x1 < strips[pair.second as usize].at.x1 {
        gap_behind(strips, m, reach, pair)
    } else {
        let turned = Pair {
            first: pair.second,
            second: pair.first,
        };
        gap_behind(strips, m, reach, &turned)
    }
}

// The gap behind a strip that another one follows, in their lowest common row.
fn gap_behind(strips: &[Strip], m: u32, reach: &Reach, pair: &Pair) -> Witness
    requires family { AreOfFamily m strips.now }
    requires pair { Follows m reach.now.across (map placed strips.now) pair.now.first pair.now.second }
    ensures { ShowsGap reach.now.across (held_by m strips.now) result }
{
    let begin = cell_behind(
        &strips[pair.first as usize].at,
        &strips[pair.second as usize].at,
    );
    let next = next_strip(strips, m, &begin, pair.second as usize);
    gap_before(&begin, &strips[next].at)
}

// The cell behind the first rectangle in the lowest row that both can have.
fn cell_behind(first: &Rect, second: &Rect) -> Cell
    ensures column { result.x ≡ first.now.x2 }
    ensures row { result.y ≡ int_max first.now.y1 second.now.y1 }
{
    let row = if first.y1 < second.y1 {
        second.y1
    } else {
        first.y1
    };
    Cell {
        x: first.x2,
        y: row,
    }
}

// The cells next to the gap from a cell up to the rectangle, and how many cells it has.
fn gap_before(begin: &Cell, next: &Rect) -> Witness
    requires { IsSide begin.now.x }
    ensures { IsShownAt (begin.now.x -ℤ pos 1) begin.now.y next.now.x1 begin.now.y (next.now.x1 -ℤ begin.now.x) result }
{
    Witness {
        p: Cell {
            x: begin.x - 1,
            y: begin.y,
        },
        q: Cell {
            x: next.x1,
            y: begin.y,
        },
        found: next.x1 - begin.x,
    }
}

// The first strip of the mask in the cell's row that begins at the cell's column or after it. One such strip is known.
fn next_strip(strips: &[Strip], m: u32, cell: &Cell, known: usize) -> usize
    requires { IsAfter m cell.now (map placed strips.now) known }
    ensures { IsNextBefore m cell.now (map placed strips.now) (length strips.now) result }
{
    let mut next = known;
    for i in 0..strips.len() {
        if comes_sooner(&strips[i], m, cell, &strips[next]) {
            next = i;
        }
    }
    next
}

// Whether the strip is of the mask, has the cell's row, begins at the cell's column or after it, and does so before a known one begins.
fn comes_sooner(strip: &Strip, m: u32, cell: &Cell, known: &Strip) -> bool
    ensures { MatchBool result (ComesSooner m cell.now (placed strip.now) (placed known.now)) (ComesNoSooner m cell.now (placed strip.now) (placed known.now)) }
{
    if begins_after(strip, m, cell) {
        strip.at.x1 < known.at.x1
    } else {
        false
    }
}

// Whether the strip is of the mask, has the cell's row, and begins at the cell's column or after it.
fn begins_after(strip: &Strip, m: u32, cell: &Cell) -> bool
    ensures { MatchBool result (BeginsAfter m cell.now (placed strip.now)) (¬ BeginsAfter m cell.now (placed strip.now)) }
{
    strip.mask == m && strip.at.y1 <= cell.y && cell.y < strip.at.y2 && cell.x <= strip.at.x1
}
