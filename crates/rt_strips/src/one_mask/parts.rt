//! Rectangles part by part: the strips of each part cover what it covers, and fewer of them stand over a row.
ghost use Rattle.std.specs.Prelude.{◌≡◌, ◌++◌, IfOk, OnOk, IsPermutation, map};
ghost use Rattle.rt_base.specs.Plane.{area};
ghost use Rattle.rt_strips.specs.OneMask.{CoverTheSame};

use super::swept;
use rt_base::{OutOfMemory, Rect};
use std::alloc::Global;

/// How many rectangles a part has. So few are swept at once.
pub(crate) const PART: usize = 256;

// A part with as many strips as this stays as it is, so that a mesh doesn't grow.
const MANY: usize = 2 * PART;

/// Rectangles that cover the same cells, and of which fewer stand over each row where many that stand over it overlap.
pub(crate) fn merged_by_parts(alloc: Global, rects: &[Rect]) -> Result<Vec<Rect>, OutOfMemory>
    ensures { IfOk result (λ merged. CoverTheSame (map area merged.items) (map area rects.now)) }
{
    let ordered = from_left(alloc, rects)?;
    let mut merged = Vec::new(alloc);
    let mut rest = ordered.as_slice();
    while !rest.is_empty() {
        let (part, later) = rest.split_at(rest.len().min(PART));
        add_part(alloc, part, &mut merged)?;
        rest = later;
    }
    Ok(merged)
}

// The rectangles in order of left sides, then of bottoms, so that those of a part are neighbours.
fn from_left(alloc: Global, rects: &[Rect]) -> Result<Vec<Rect>, OutOfMemory>
    ensures { IfOk result (λ ordered. IsPermutation rects.now ordered.items) }
{
    let mut ordered = Vec::new(alloc);
    ordered.extend_from_slice(rects)?;
    ordered.sort_by_key(|rect| (rect.x1, rect.y1))?;
    Ok(ordered)
}

// Appends the strips of a part, or the part itself where it has many.
fn add_part(alloc: Global, part: &[Rect], merged: &mut Vec<Rect>) -> Result<(), OutOfMemory>
    ensures { OnOk result (CoverTheSame (map area merged.new.items) (map area (merged.old.items ++ part.now))) }
{
    let found = swept(alloc, part, MANY)?;
    if found.strips.len() < MANY {
        merged.extend_from_slice(found.strips.as_slice())?;
    } else {
        merged.extend_from_slice(part)?;
    }
    Ok(())
}
