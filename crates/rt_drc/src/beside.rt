//! A rectangle and a cell beside it.
ghost use Rattle.std.specs.Prelude.{◌≡◌};
ghost use Rattle.std.specs.Int.{int_max};
ghost use Rattle.rt_cells.specs.Line.{between, nearest_place};
ghost use Rattle.rt_cells.specs.Rectangles.{Holds};
ghost use Rattle.rt_base.specs.Plane.{area};
ghost use Rattle.rt_tech.specs.declared.limits.TheConstants.{LENGTH_LIMIT};
ghost use Rattle.rt_cuts.specs.Cuts.{grown};
ghost use Rattle.rt_drc.specs.Enclosing.{IsSeenFrom};

use crate::pieces::nearest;
use crate::rows::Witness;
use rt_base::{Cell, Rect};

/// The cell of a rectangle that is nearest to another cell, that cell, and the columns or the rows between them, whichever are more. The other cell is
/// at most as far away as a length of a table.
pub(crate) fn seen_from(at: &Rect, cell: &Cell) -> Witness
    requires { Holds (grown LENGTH_LIMIT (area at.now)) cell.now.x cell.now.y }
    ensures seen { IsSeenFrom (area at.now) result }
    ensures cell { result.q ≡ cell.now }
{
    let p = nearest_to(at, cell);
    let found = wider_gap_to(at, cell);
    Witness { p, q: *cell, found }
}

// The cell of a rectangle that is nearest to another cell.
fn nearest_to(at: &Rect, cell: &Cell) -> Cell
    ensures column { result.x ≡ nearest_place at.now.x1 at.now.x2 cell.now.x }
    ensures row { result.y ≡ nearest_place at.now.y1 at.now.y2 cell.now.y }
{
    let x = nearest(at.x1, at.x2, cell.x);
    let y = nearest(at.y1, at.y2, cell.y);
    Cell { x, y }
}

// The columns or the rows between a rectangle and a cell, whichever are more.
fn wider_gap_to(at: &Rect, cell: &Cell) -> i64
    requires { Holds (grown LENGTH_LIMIT (area at.now)) cell.now.x cell.now.y }
    ensures { result ≡ int_max (between (nearest_place at.now.x1 at.now.x2 cell.now.x) cell.now.x) (between (nearest_place at.now.y1 at.now.y2 cell.now.y) cell.now.y) }
{
    let columns = columns_to(at, cell);
    let rows = rows_to(at, cell);
    if columns < rows { rows } else { columns }
}

// How many columns lie strictly between a rectangle and a cell.
fn columns_to(at: &Rect, cell: &Cell) -> i64
    requires { Holds (grown LENGTH_LIMIT (area at.now)) cell.now.x cell.now.y }
    ensures { result ≡ between (nearest_place at.now.x1 at.now.x2 cell.now.x) cell.now.x }
{
    if cell.x < at.x1 {
        at.x1 - cell.x - 1
    } else if cell.x >= at.x2 {
        cell.x - at.x2
    } else {
        0
    }
}

// How many rows lie strictly between them.
fn rows_to(at: &Rect, cell: &Cell) -> i64
    requires { Holds (grown LENGTH_LIMIT (area at.now)) cell.now.x cell.now.y }
    ensures { result ≡ between (nearest_place at.now.y1 at.now.y2 cell.now.y) cell.now.y }
{
    if cell.y < at.y1 {
        at.y1 - cell.y - 1
    } else if cell.y >= at.y2 {
        cell.y - at.y2
    } else {
        0
    }
}
