//! The pieces of a slab: the runs of the columns that the bars of a tag cover there.
ghost use Rattle.std.specs.Prelude.{◌<◌, ◌≤ℤ◌, ◌<ℤ◌, length, map, All, AllPairs, OnOk, MatchBool};
ghost use Rattle.rt_base.specs.Plane.{area};
ghost use Rattle.rt_sweep.specs.Slabs.{Crosses};
ghost use Rattle.rt_strips.specs.Pieces.{IsColumnOf, ArePieces, MeetsLast, IsRightOfLast, IsStretched, AddsColumns};

use rt_base::{OutOfMemory, Rect};
use rt_sweep::{Bar, Slab};

// Writes the runs of the columns that the bars of the tag cover, over the rows of the slab, from left to right, in the place of what the
// buffer held. The bars cross the slab and stand in order of their left ends.
pub(crate) fn pieces_of(
    active: &[Bar],
    tag: u32,
    slab: &Slab,
    into: &mut Vec<Rect>,
) -> Result<(), OutOfMemory>
    requires some_rows { slab.now.bottom <ℤ slab.now.top }
    requires crossing { All (λ bar. Crosses slab.now.bottom slab.now.top (area bar.at)) active.now }
    requires across { AllPairs (λ a b. a.at.x1 ≤ℤ b.at.x1) active.now }
    ensures { OnOk result (ArePieces (IsColumnOf active.now tag) slab.now.bottom slab.now.top (map area into.new.items)) }
{
    into.clear();
    for bar in active {
        if bar.tag == tag {
            add_columns(into, &bar.at, slab)?;
        }
    }
    Ok(())
}

// Adds the rectangle's columns: the last piece is stretched to them, where they meet or adjoin it; else they begin a piece.
fn add_columns(into: &mut Vec<Rect>, at: &Rect, slab: &Slab) -> Result<(), OutOfMemory>
    requires some_rows { slab.now.bottom <ℤ slab.now.top }
    requires crosses { Crosses slab.now.bottom slab.now.top (area at.now) }
    ensures { OnOk result (AddsColumns at.now.x1 at.now.x2 slab.now.bottom slab.now.top (map area into.old.items) (map area into.new.items)) }
{
    if meets_last(into.as_slice(), at) {
        stretch_last(into.as_mut_slice(), at);
        return Ok(());
    }
    into.push(Rect {
        x1: at.x1,
        y1: slab.bottom,
        x2: at.x2,
        y2: slab.top,
    })?;
    Ok(())
}

// Whether the rectangle begins in the last piece or next to it, and not to the right of it.
fn meets_last(pieces: &[Rect], at: &Rect) -> bool
    ensures { MatchBool result (MeetsLast at.now.x1 (map area pieces.now)) (IsRightOfLast at.now.x1 (map area pieces.now)) }
{
    if pieces.is_empty() {
        return false;
    }
    at.x1 <= pieces[pieces.len() - 1].x2
}

// Stretches the last piece to the end of the rectangle.
fn stretch_last(pieces: &mut [Rect], at: &Rect)
    requires { 0 < length pieces.old }
    ensures { IsStretched at.now.x2 (map area pieces.old) (map area pieces.new) }
{
    let last = pieces.len() - 1;
    if pieces[last].x2 < at.x2 {
        pieces[last].x2 = at.x2;
    }
}
