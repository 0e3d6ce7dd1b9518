//! Whether the template upwards has a row of a name.
ghost use Rattle.std.specs.Prelude.{MatchBool, MatchOption};
ghost use Rattle.rt_rows.specs.declared.row.Row.{Row as RowValue};
ghost use Rattle.rt_rows.specs.Places.{places};
ghost use Rattle.rt_view.specs.Job.{strips_of, IsJob};
ghost use Rattle.rt_strips.specs.Standing.{StandsOn};
ghost use Rattle.rt_template.specs.Vertical.{HaveColumns, IsWholeChain, RowUpwards, HasUpwards};

use crate::apart::is_off_above;
use crate::chains::is_whole_chain;
use crate::close::{are_both_strips, is_kept_above, is_strip};
use crate::rows::own_row;
use rt_between::{is_cut_strip, is_highest_host, is_lowest_host};
use rt_rows::{Name, Positions, Row};
use rt_strips::touching;
use rt_view::Job;

/// The row of that name in the template upwards at the columns, where the template has it. It takes no memory. (This project's own.)
pub fn has_row_v(job: &Job, columns: &Positions, name: Name) -> Option<Row>
    requires job { IsJob job.now }
    requires columns { HaveColumns job.now columns.now }
    ensures { MatchOption result ((row : RowValue) → RowUpwards job.now (places columns.now) name row → ⊥) (RowUpwards job.now (places columns.now) name) }
{
    if has_name(job, columns, &name) {
        own_row(job, &name)
    } else {
        None
    }
}

// Whether the template has a row of that name.
pub(crate) fn has_name(job: &Job, columns: &Positions, name: &Name) -> bool
    requires job { IsJob job.now }
    requires columns { HaveColumns job.now columns.now }
    ensures { MatchBool result (HasUpwards job.now (places columns.now) name.now) (¬ HasUpwards job.now (places columns.now) name.now) }
{
    match *name {
        Name::Lo(i) => is_strip(job, i),
        Name::Hi(i) => is_strip(job, i),
        Name::Zero => true,
        Name::Top => true,
        Name::Tall(i) => is_strip(job, i),
        Name::Size(i) => is_cut_strip(job, i),
        Name::On(i, j) => stands_on(job, i, j),
        Name::Under(i, j) => stands_on(job, i, j),
        Name::Gap(i, j) => is_kept_above(job, columns, i, j),
        Name::Run(i, j) => has_run(job, columns, i, j),
        Name::Off(q, i, j) => is_off_above(job, columns, q, i, j),
        Name::Inb(q, i, h) => is_lowest_host(job, q, i, h),
        Name::Int(q, i, h) => is_highest_host(job, q, i, h),
        _ => false,
    }
}

// Whether strip j stands on strip i.
fn stands_on(job: &Job, i: u32, j: u32) -> bool
    ensures { MatchBool result (StandsOn (strips_of job.now) i j) (¬ StandsOn (strips_of job.now) i j) }
{
    if are_both_strips(job, i, j) {
        touching(&job.view.strips, i, j)
    } else {
        false
    }
}

// Whether a whole chain leads from strip i to strip j.
fn has_run(job: &Job, columns: &Positions, i: u32, j: u32) -> bool
    requires job { IsJob job.now }
    requires columns { HaveColumns job.now columns.now }
    ensures { MatchBool result (IsWholeChain job.now (places columns.now) i j) (¬ IsWholeChain job.now (places columns.now) i j) }
{
    if !are_both_strips(job, i, j) {
        return false;
    }
    if job.view.strips.masks <= job.view.strips.list.as_slice()[i as usize].mask {
        return false;
    }
    is_whole_chain(job, columns, i, j)
}
