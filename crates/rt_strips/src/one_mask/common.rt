//! The common parts of two rows of pieces.
ghost use Rattle.std.specs.Prelude.{◌≤ℤ◌, ◌<ℤ◌, map, All, AllPairs, OnOk};
ghost use Rattle.rt_base.specs.Plane.{area};
ghost use Rattle.rt_sweep.specs.Slabs.{Crosses};
ghost use Rattle.rt_strips.specs.Pieces.{IsBothColumn, ArePieces, AddsCommon, AreCommon};

use super::pieces::pieces_of;
use rt_base::{OutOfMemory, Rect};
use rt_sweep::{Bar, Slab};

// Writes into `both` the runs of the columns that bars of both tags, 0 and 1, cover, over the rows of the slab, from left to right. Into
// `first` and `second` go the runs of each tag.
pub(crate) fn both_pieces_of(
    active: &[Bar],
    slab: &Slab,
    first: &mut Vec<Rect>,
    second: &mut Vec<Rect>,
    both: &mut Vec<Rect>,
) -> Result<(), OutOfMemory>
    requires some_rows { slab.now.bottom <ℤ slab.now.top }
    requires crossing { All (λ bar. Crosses slab.now.bottom slab.now.top (area bar.at)) active.now }
    requires across { AllPairs (λ a b. a.at.x1 ≤ℤ b.at.x1) active.now }
    ensures { OnOk result (ArePieces (IsBothColumn active.now) slab.now.bottom slab.now.top (map area both.new.items)) }
{
    pieces_of(active, 0, slab, first)?;
    pieces_of(active, 1, slab, second)?;
    common_pieces(first.as_slice(), second.as_slice(), both)?;
    Ok(())
}

// Writes the common parts of two rows of pieces, from left to right, in the place of what the buffer held.
fn common_pieces(first: &[Rect], second: &[Rect], into: &mut Vec<Rect>) -> Result<(), OutOfMemory>
    ensures { OnOk result (AreCommon (map area first.now) (map area second.now) (map area into.new.items)) }
{
    into.clear();
    let mut i = 0;
    let mut j = 0;
    while i < first.len() && j < second.len() {
        let a = &first[i];
        let b = &second[j];
        add_common(into, a, b)?;
        if a.x2 < b.x2 {
            i += 1;
        } else {
            j += 1;
        }
    }
    Ok(())
}

// Appends the common part of two pieces of one row, where there is one.
fn add_common(into: &mut Vec<Rect>, a: &Rect, b: &Rect) -> Result<(), OutOfMemory>
    ensures { OnOk result (AddsCommon (area a.now) (area b.now) (map area into.old.items) (map area into.new.items)) }
{
    let x1 = if a.x1 < b.x1 { b.x1 } else { a.x1 };
    let x2 = if a.x2 < b.x2 { a.x2 } else { b.x2 };
    if x1 < x2 {
        into.push(Rect {
            x1,
            y1: a.y1,
            x2,
            y2: a.y2,
        })?;
    }
    Ok(())
}
