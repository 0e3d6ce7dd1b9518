//! Pieces that are too near each other.
ghost use Rattle.std.specs.Prelude.{◌<◌, ◌^◌, pos, ◌≤ℤ◌, ◌<ℤ◌, length, map, IfOk, MatchOption, ◌≡◌};
ghost use Rattle.std.specs.Int.{int_max};
ghost use Rattle.rt_cells.specs.Line.{nearest_place};
ghost use Rattle.rt_cells.specs.Rectangles.{columns_between, rows_between};
ghost use Rattle.rt_base.specs.Plane.{area};
ghost use Rattle.rt_rules.specs.Space.{KeepsPiecesApart};
ghost use Rattle.rt_strips.specs.Placed.{placed};
ghost use Rattle.rt_strips.specs.Standing.{IsStrip};
ghost use Rattle.rt_strips.specs.Seams.{AreSeamsOf};
ghost use Rattle.rt_pieces.specs.Members.{AreOfFamily, held_by, box_of};
ghost use Rattle.rt_drc.specs.Cornering.{HasNearestCells, ShowsNearPieces};

use crate::near::{Pair, first_near};
use crate::reach::Reach;
use crate::rows::{Rows, Witness};
use rt_base::{Cell, OutOfMemory, Rect, gap_x, gap_y};
use rt_pieces::piece_numbers;
use rt_strips::Strip;
use std::alloc::Global;

/// Two cells of different pieces of mask number `m` that are nearer than the reach, which is the same on both axes, if there are any. The one
/// error is a want of memory.
pub(crate) fn near_pieces(
    alloc: Global,
    rows: &Rows<'_>,
    m: u32,
    reach: &Reach,
) -> Result<Option<Witness>, OutOfMemory>
    requires few { length rows.now.strips.now < 2 ^ 32 }
    requires across { pos 1 ≤ℤ reach.now.across }
    requires upwards { reach.now.upwards ≡ reach.now.across }
    requires family { AreOfFamily m rows.now.strips.now }
    requires seams { AreSeamsOf (map placed rows.now.strips.now) rows.now.seams.now }
    ensures { IfOk result (λ found. MatchOption found
        (KeepsPiecesApart reach.now.across (held_by m rows.now.strips.now))
        (ShowsNearPieces reach.now.across (held_by m rows.now.strips.now))) }
{
    let numbers = piece_numbers(alloc, rows.strips, rows.seams, m)?;
    match first_near(alloc, rows.strips, m, numbers.as_slice(), reach)? {
        Some(pair) => Ok(Some(cells_of_pair(rows.strips, &pair))),
        None => Ok(None),
    }
}

/// The nearest cells of two strips.
pub(crate) fn cells_of_pair(strips: &[Strip], pair: &Pair) -> Witness
    requires first { IsStrip (map placed strips.now) pair.now.first }
    requires second { IsStrip (map placed strips.now) pair.now.second }
    ensures { HasNearestCells (box_of (map placed strips.now) pair.now.first) (box_of (map placed strips.now) pair.now.second) result }
{
    nearest_cells(
        &strips[pair.first as usize].at,
        &strips[pair.second as usize].at,
    )
}

// The cells of two rectangles that are nearest to each other, with the columns or the rows between them, whichever are more.
fn nearest_cells(a: &Rect, b: &Rect) -> Witness
    ensures { HasNearestCells (area a.now) (area b.now) result }
{
    let found = wider_gap(a, b);
    let p = nearest_cell(a, b);
    let q = nearest_cell(b, a);
    Witness { p, q, found }
}

// The columns or the rows between two rectangles, whichever are more.
fn wider_gap(a: &Rect, b: &Rect) -> i64
    ensures { result ≡ int_max (columns_between (area a.now) (area b.now)) (rows_between (area a.now) (area b.now)) }
{
    let columns = gap_x(a, b);
    let rows = gap_y(a, b);
    if columns < rows { rows } else { columns }
}

// The cell of one rectangle that is nearest to another.
fn nearest_cell(of: &Rect, to: &Rect) -> Cell
    ensures column { result.x ≡ nearest_place of.now.x1 of.now.x2 to.now.x1 }
    ensures row { result.y ≡ nearest_place of.now.y1 of.now.y2 to.now.y1 }
{
    let x = nearest(of.x1, of.x2, to.x1);
    let y = nearest(of.y1, of.y2, to.y1);
    Cell { x, y }
}

/// The place from `low` up to, and without, `high` that is nearest to `other`.
pub(crate) fn nearest(low: i64, high: i64, other: i64) -> i64
    requires { low <ℤ high }
    ensures { result ≡ nearest_place low high other }
{
    if other <= low {
        low
    } else if other >= high {
        high - 1
    } else {
        other
    }
}
