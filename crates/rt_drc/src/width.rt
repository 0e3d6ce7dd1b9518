//! The search for what breaks the width rule of a mask.
ghost use Rattle.std.specs.Prelude.{◌≡◌, ◌<◌, pos, ◌-ℤ◌, map, MatchOption};
ghost use Rattle.rt_base.specs.Plane.{area};
ghost use Rattle.rt_rules.specs.Width.{KeepsWidthAlongRows, KeepsWidth};
ghost use Rattle.rt_strips.specs.Placed.{placed};
ghost use Rattle.rt_tech.specs.Tech.{IsLength};
ghost use Rattle.rt_drc.specs.Rows.{AreRowsOf, cells_of, turned_cells_of, ShowsWidthAlongRows, ShowsWidth};
ghost use Rattle.rt_drc.specs.Wide.{IsShownAt, common_left, common_right, IsWideOn, IsNarrowOn, ShareEnoughOn, ShareTooLittleOn, AreWideOn, AreSharedOn};

use crate::rows::{Rows, Witness};
use rt_base::{Cell, Rect};
use rt_strips::Strip;

/// What breaks the width rule `width` of mask number `m`, if anything does: a run of a row or of a column that is too short, or two of them that share
/// too little. `rows` are the strips of all masks, `columns` those of the same cells with columns and rows exchanged. It takes no memory.
pub(crate) fn width_breach(
    rows: &Rows<'_>,
    columns: &Rows<'_>,
    masks: u32,
    m: u32,
    width: i64,
) -> Option<Witness>
    requires mask { m < masks }
    requires width { IsLength width }
    requires rows { AreRowsOf (cells_of rows.now.strips.now) masks rows.now.strips.now rows.now.seams.now }
    requires columns { AreRowsOf (turned_cells_of rows.now.strips.now) masks columns.now.strips.now columns.now.seams.now }
    ensures { MatchOption result (KeepsWidth width (cells_of rows.now.strips.now m)) (ShowsWidth width (cells_of rows.now.strips.now m)) }
{
    if let Some(witness) = breach_along_rows(rows, masks, m, &width) {
        return Some(witness);
    }
    if let Some(witness) = breach_along_rows(columns, masks, m, &width) {
        return Some(witness.exchanged());
    }
    None
}

// What breaks the width rule along rows: a strip that is too narrow, or a seam at which two share too little.
fn breach_along_rows(rows: &Rows<'_>, masks: u32, m: u32, width: &i64) -> Option<Witness>
    requires { AreRowsOf (cells_of rows.now.strips.now) masks rows.now.strips.now rows.now.seams.now }
    ensures { MatchOption result (KeepsWidthAlongRows width.now (cells_of rows.now.strips.now m)) (ShowsWidthAlongRows width.now (cells_of rows.now.strips.now m)) }
{
    if let Some(witness) = narrow_run(rows, masks, m, width) {
        return Some(witness);
    }
    narrow_contact(rows, masks, m, width)
}

// The first strip of the mask that is too narrow.
fn narrow_run(rows: &Rows<'_>, masks: u32, m: u32, width: &i64) -> Option<Witness>
    requires { AreRowsOf (cells_of rows.now.strips.now) masks rows.now.strips.now rows.now.seams.now }
    ensures { MatchOption result (AreWideOn m width.now (map placed rows.now.strips.now)) (ShowsWidthAlongRows width.now (cells_of rows.now.strips.now m)) }
{
    for strip in rows.strips {
        if let Some(witness) = narrow_strip(strip, m, width) {
            return Some(witness);
        }
    }
    None
}

// The ends of the strip's lowest row, if it is of the mask and too narrow.
fn narrow_strip(strip: &Strip, m: u32, width: &i64) -> Option<Witness>
    ensures { MatchOption result (IsWideOn m width.now (placed strip.now)) (IsNarrowOn m width.now (placed strip.now)) }
{
    let witness = lowest_row(&strip.at);
    if strip.mask != m || witness.found >= *width {
        return None;
    }
    Some(witness)
}

// The ends of a rectangle's lowest row, and how many columns it has.
fn lowest_row(at: &Rect) -> Witness
    ensures { IsShownAt at.now.x1 at.now.y1 (at.now.x2 -ℤ pos 1) at.now.y1 (at.now.x2 -ℤ at.now.x1) result }
{
    Witness {
        p: Cell { x: at.x1, y: at.y1 },
        q: Cell {
            x: at.x2 - 1,
            y: at.y1,
        },
        found: at.x2 - at.x1,
    }
}

// The first seam of the mask at which two strips share too little.
fn narrow_contact(rows: &Rows<'_>, masks: u32, m: u32, width: &i64) -> Option<Witness>
    requires { AreRowsOf (cells_of rows.now.strips.now) masks rows.now.strips.now rows.now.seams.now }
    ensures { MatchOption result (AreSharedOn m width.now (map placed rows.now.strips.now)) (ShowsWidthAlongRows width.now (cells_of rows.now.strips.now m)) }
{
    for seam in rows.seams {
        let below = &rows.strips[seam.below as usize];
        let above = &rows.strips[seam.above as usize];
        if let Some(witness) = narrow_seam(below, above, m, width) {
            return Some(witness);
        }
    }
    None
}

// The ends of what the two strips share, if the lower one is of the mask and they share too little.
fn narrow_seam(below: &Strip, above: &Strip, m: u32, width: &i64) -> Option<Witness>
    ensures { MatchOption result (ShareEnoughOn m width.now (placed below.now) (placed above.now)) (ShareTooLittleOn m width.now (placed below.now) (placed above.now)) }
{
    let witness = shared_part(&below.at, &above.at);
    if below.mask != m || witness.found <= 0 || witness.found >= *width {
        return None;
    }
    Some(witness)
}

// The ends of the columns that two rectangles have in common, in the last row of the lower one, and how many they are; none where the number isn't above 0.
fn shared_part(below: &Rect, above: &Rect) -> Witness
    ensures { IsShownAt (common_left (area below.now) (area above.now)) (below.now.y2 -ℤ pos 1) (common_right (area below.now) (area above.now) -ℤ pos 1) (below.now.y2 -ℤ pos 1)
        (common_right (area below.now) (area above.now) -ℤ common_left (area below.now) (area above.now)) result }
{
    let y = below.y2 - 1;
    let low = below.x1.max(above.x1);
    let high = below.x2.min(above.x2);
    Witness {
        p: Cell { x: low, y },
        q: Cell { x: high - 1, y },
        found: high - low,
    }
}
