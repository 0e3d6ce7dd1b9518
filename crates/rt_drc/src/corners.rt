//! Cells that meet at a corner alone.
ghost use Rattle.std.specs.Prelude.{map, MatchOption};
ghost use Rattle.rt_base.specs.Plane.{area};
ghost use Rattle.rt_strips.specs.Placed.{placed};
ghost use Rattle.rt_strips.specs.Seams.{AreSeamsOf};
ghost use Rattle.rt_pieces.specs.Members.{AreOfFamily, held_by};
ghost use Rattle.rt_drc.specs.Cornering.{HasNoCornerContact, IsCornerOf, MeetAtNoCorner, ShowsCorner};

use crate::rows::{Rows, Witness};
use rt_base::{Cell, Rect};

/// Two cells of mask number `m` that meet at a corner alone, if there are any.
pub(crate) fn corner_contact(rows: &Rows<'_>, m: u32) -> Option<Witness>
    requires family { AreOfFamily m rows.now.strips.now }
    requires seams { AreSeamsOf (map placed rows.now.strips.now) rows.now.seams.now }
    ensures { MatchOption result (HasNoCornerContact (held_by m rows.now.strips.now)) (ShowsCorner (held_by m rows.now.strips.now)) }
{
    for seam in rows.seams {
        let lower = &rows.strips[seam.below as usize];
        let upper = &rows.strips[seam.above as usize];
        if lower.mask == m {
            if let Some(corner) = corner_of(&lower.at, &upper.at) {
                return Some(corner);
            }
        }
    }
    None
}

// The cells at the corner at which the second rectangle, which begins in the row in which the first one ends, meets it, if they meet at one.
fn corner_of(lower: &Rect, upper: &Rect) -> Option<Witness>
    ensures { MatchOption result (MeetAtNoCorner (area lower.now) (area upper.now)) (IsCornerOf (area lower.now) (area upper.now)) }
{
    if lower.x2 == upper.x1 {
        Some(Witness {
            p: Cell {
                x: lower.x2 - 1,
                y: lower.y2 - 1,
            },
            q: Cell {
                x: upper.x1,
                y: upper.y1,
            },
            found: 0,
        })
    } else if upper.x2 == lower.x1 {
        Some(Witness {
            p: Cell {
                x: lower.x1,
                y: lower.y2 - 1,
            },
            q: Cell {
                x: upper.x2 - 1,
                y: upper.y1,
            },
            found: 0,
        })
    } else {
        None
    }
}
