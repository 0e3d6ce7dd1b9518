//! The strips of the same cells with columns and rows exchanged.
ghost use Rattle.std.specs.Prelude.{◌≡◌, ◌+◌, ◌++◌, map, IfOk, OnOk};
ghost use Rattle.rt_base.specs.Plane.{area};
ghost use Rattle.rt_strips.specs.Placed.{placed, areas_of};
ghost use Rattle.rt_strips.specs.StripsOf.{AreStripsOf};
ghost use Rattle.rt_strips.specs.Tallies.{at_mask};
ghost use Rattle.rt_drc.specs.Rows.{exchanged, turned_cells_of};

use rt_base::{OutOfMemory, Rect};
use rt_strips::{Strip, strips_of_rects};
use std::alloc::Global;

/// The strips, in order of mask, of what so many masks cover by the strips, with columns and rows exchanged.
pub(crate) fn turned(alloc: Global, strips: &[Strip], masks: u32) -> Result<Vec<Strip>, OutOfMemory>
    ensures { IfOk result (λ turned. AreStripsOf (turned_cells_of strips.now) masks (map placed turned.items)) }
{
    let mut turned = Vec::new(alloc);
    for m in 0..masks {
        add_mask(alloc, strips, m, &mut turned)?;
    }
    Ok(turned)
}

// Adds those of one more mask.
fn add_mask(
    alloc: Global,
    strips: &[Strip],
    m: u32,
    turned: &mut Vec<Strip>,
) -> Result<(), OutOfMemory>
    requires { AreStripsOf (turned_cells_of strips.now) m (map placed turned.old.items) }
    ensures { OnOk result (AreStripsOf (turned_cells_of strips.now) (m + 1) (map placed turned.new.items)) }
{
    let rects = exchanged_areas(alloc, strips, m)?;
    let areas = strips_of_rects(alloc, rects.as_slice())?;
    add_areas(areas.as_slice(), m, turned)
}

// The rectangles of one mask, with columns and rows exchanged.
fn exchanged_areas(alloc: Global, strips: &[Strip], m: u32) -> Result<Vec<Rect>, OutOfMemory>
    ensures { IfOk result (λ rects. map area rects.items ≡ map exchanged (areas_of m (map placed strips.now))) }
{
    let mut rects = Vec::new(alloc);
    for strip in strips {
        if strip.mask == m {
            rects.push(exchanged_area(&strip.at))?;
        }
    }
    Ok(rects)
}

// The rectangle with columns and rows exchanged.
fn exchanged_area(at: &Rect) -> Rect
    ensures { area result ≡ exchanged (area at.now) }
{
    Rect {
        x1: at.y1,
        y1: at.x1,
        x2: at.y2,
        y2: at.x2,
    }
}

// Adds strips of one mask.
fn add_areas(areas: &[Rect], m: u32, turned: &mut Vec<Strip>) -> Result<(), OutOfMemory>
    ensures { OnOk result (map placed turned.new.items ≡ map placed turned.old.items ++ map (at_mask m) (map area areas.now)) }
{
    for at in areas {
        turned.push(Strip { mask: m, at: *at })?;
    }
    Ok(())
}
