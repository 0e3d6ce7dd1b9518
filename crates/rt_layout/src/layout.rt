//! Labels, layouts, and whether a mask covers a cell.
ghost use Rattle.std.specs.Prelude.{◌<◌, length, map, MatchBool, slice_index_or, []};
ghost use Rattle.rt_base.specs.Plane.{area};
ghost use Rattle.rt_cells.specs.Rectangles.{Holds, Covers};
ghost use Rattle.rt_layout.specs.Covering.{MaskCovers, rectangles_of};

use rt_base::{Cell, List, Rect, Text};

/// A label: a text at a point of a mask, in source database units.
#[derive(Drop)]
pub struct Label {
    /// The mask's number, from 0.
    pub mask: u32,
    /// The point, across and upwards.
    pub at: (i64, i64),
    /// The text.
    pub text: Text,
}

/// A flat layout, in source database units.
#[derive(Drop)]
pub struct Layout {
    /// The rectangles of each mask, by the masks' numbers. They may overlap.
    pub masks: List<List<Rect>>,
    /// The labels, in the stream's order.
    pub labels: List<Label>,
}

/// Whether a mask covers a cell: whether one of its rectangles holds it. It takes no memory.
pub fn covers(layout: &Layout, mask: u32, cell: Cell) -> bool
    requires { mask < length layout.now.masks }
    ensures { MatchBool result (MaskCovers layout.now mask cell.x cell.y) (MaskCovers layout.now mask cell.x cell.y → ⊥) }
{
    covered(layout.masks.as_slice()[mask as usize].as_slice(), &cell)
}

// Whether one of the rectangles holds the cell.
fn covered(rectangles: &[Rect], cell: &Cell) -> bool
    ensures { MatchBool result (Covers (map area rectangles.now) cell.now.x cell.now.y) (Covers (map area rectangles.now) cell.now.x cell.now.y → ⊥) }
{
    for rectangle in rectangles {
        if holds(rectangle, cell) {
            return true;
        }
    }
    false
}

// Whether the rectangle holds the cell.
fn holds(rectangle: &Rect, cell: &Cell) -> bool
    ensures { MatchBool result (Holds (area rectangle.now) cell.now.x cell.now.y) (Holds (area rectangle.now) cell.now.x cell.now.y → ⊥) }
{
    if cell.x < rectangle.x1 || rectangle.x2 <= cell.x {
        return false;
    }
    if cell.y < rectangle.y1 || rectangle.y2 <= cell.y {
        return false;
    }
    true
}
