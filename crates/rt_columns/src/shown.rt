//! The names of rows that the columns of a drawing show.
ghost use Rattle.std.specs.Prelude.{◌<◌, ◌^◌, length, map, IfOk};
ghost use Rattle.rt_strips.specs.Placed.{placed};
ghost use Rattle.rt_rows.specs.Places.{places};
ghost use Rattle.rt_view.specs.Job.{IsJob};
ghost use Rattle.rt_template.specs.Vertical.{HaveColumns};
ghost use Rattle.rt_columns.specs.Shown.{ListsShown};
ghost use Rattle.rt_columns.specs.Sides.{side_of, HaveSides};
ghost use Rattle.rt_columns.specs.Ranking.{ListsMasks};

use crate::mask::add_mask;
use crate::ranks::{ranks, sorted_sides};
use rt_base::{List, OutOfMemory};
use rt_rows::{Name, Positions};
use rt_strips::Strips;
use rt_view::Job;
use std::alloc::Global;

/// The names that the columns of the drawing show, in no order that is told, each at least once: of the gap between two strips of which the
/// upper one is seen from the lower one, and of the run of each whole chain. A sweep over the columns finds them.
/// The one error is a want of memory. (This project's own.)
pub fn column_names(
    alloc: Global,
    job: &Job,
    columns: &Positions,
) -> Result<List<Name>, OutOfMemory>
    requires job { IsJob job.now }
    requires columns { HaveColumns job.now columns.now }
    ensures { IfOk result (ListsShown job.now (places columns.now)) }
{
    let count = job.view.strips.list.as_slice().len();
    let left = columns.l.as_slice();
    let right = columns.r.as_slice();
    let sorted = sorted_sides(alloc, left, right, count)?;
    let lefts = ranks(alloc, sorted.as_slice(), left, count)?;
    let rights = ranks(alloc, sorted.as_slice(), right, count)?;
    let names = mask_names(alloc, &job.view.strips, lefts.as_slice(), rights.as_slice())?;
    Ok(names)
}

// The names that the columns of all masks show, where the left and the right side of each strip are told.
fn mask_names(
    alloc: Global,
    strips: &Strips,
    lefts: &[i64],
    rights: &[i64],
) -> Result<List<Name>, OutOfMemory>
    requires few { length strips.now.list < 2 ^ 32 }
    requires sides { HaveSides (length strips.now.list) lefts.now rights.now }
    ensures { IfOk result (ListsMasks (map placed strips.now.list) (side_of lefts.now) (side_of rights.now) strips.now.masks) }
{
    let mut names = List::new(alloc);
    for mask in 0..strips.masks {
        add_mask(alloc, strips, lefts, rights, mask, &mut names)?;
    }
    Ok(names)
}
