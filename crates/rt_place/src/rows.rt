//! The rows of the templates with their names.
ghost use Rattle.std.specs.Prelude.{IfOk};
ghost use Rattle.rt_rows.specs.Order.{ListsNames};
ghost use Rattle.rt_rows.specs.Places.{places};
ghost use Rattle.rt_view.specs.Job.{IsJob};
ghost use Rattle.rt_template.specs.Horizontal.{RowAcross, HasAcross};
ghost use Rattle.rt_template.specs.Vertical.{RowUpwards, HaveColumns};
ghost use Rattle.rt_place.specs.Placing.{HoldsRows, AreRowsOf};

use crate::order::in_source_order;
use rt_base::{List, OutOfMemory};
use rt_htemplate::{has_row_h, rows_h};
use rt_rows::{Name, Positions, Row};
use rt_view::Job;
use rt_vtemplate::named_rows_v;
use std::alloc::Global;

// The rows of the template across, in the order of the source.
pub(crate) fn rows_across(alloc: Global, job: &Job) -> Result<List<(Name, Row)>, OutOfMemory>
    requires job { IsJob job.now }
    ensures { IfOk result (HoldsRows (RowAcross job.now)) }
{
    let names = rows_h(alloc, job)?;
    let rows = with_rows(alloc, job, names.as_slice())?;
    let strips = job.view.strips.list.as_slice();
    let ordered = in_source_order(alloc, strips, rows.as_slice())?;
    Ok(ordered)
}

// The names, each with its row.
fn with_rows(alloc: Global, job: &Job, names: &[Name]) -> Result<List<(Name, Row)>, OutOfMemory>
    requires job { IsJob job.now }
    requires listed { ListsNames (HasAcross job.now) names.now }
    ensures { IfOk result (AreRowsOf (RowAcross job.now) names.now) }
{
    let mut rows = List::new(alloc);
    for name in names {
        let row = row_named(job, name);
        rows.push((*name, row))?;
    }
    Ok(rows)
}

// The row of a name that the template across has.
fn row_named(job: &Job, name: &Name) -> Row
    requires job { IsJob job.now }
    requires has { HasAcross job.now name.now }
    ensures { RowAcross job.now name.now result }
{
    match has_row_h(job, *name) {
        Some(row) => row,
        None => unreachable!(),
    }
}

// The rows of the template upwards at the columns, in the order of the source.
pub(crate) fn rows_upwards(
    alloc: Global,
    job: &Job,
    columns: &Positions,
) -> Result<List<(Name, Row)>, OutOfMemory>
    requires job { IsJob job.now }
    requires columns { HaveColumns job.now columns.now }
    ensures { IfOk result (HoldsRows (RowUpwards job.now (places columns.now))) }
{
    let rows = named_rows_v(alloc, job, columns)?;
    let strips = job.view.strips.list.as_slice();
    let ordered = in_source_order(alloc, strips, rows.as_slice())?;
    Ok(ordered)
}
