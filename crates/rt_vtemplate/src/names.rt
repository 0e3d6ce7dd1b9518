//! The names of the template upwards.
ghost use Rattle.std.specs.Prelude.{IfOk, OnOk};
ghost use Rattle.rt_rows.specs.Places.{places};
ghost use Rattle.rt_rows.specs.Order.{ListsNames};
ghost use Rattle.rt_view.specs.Job.{IsJob};
ghost use Rattle.rt_template.specs.Vertical.{HaveColumns, HasUpwards};
ghost use Rattle.rt_vtemplate.specs.Added.{AreAdded, HoldsExactly};
ghost use Rattle.rt_vtemplate.specs.Kinds.{IsOfNear, IsOfTwo};
ghost use Rattle.rt_vtemplate.specs.Steps.{IsOfSource};

use crate::between::add_between;
use crate::clear::add_of_pairs;
use crate::found::{add_of_strips, add_of_whole, add_standing};
use crate::nearby::near_strips;
use rt_base::{List, OutOfMemory};
use rt_columns::column_names;
use rt_rows::{Name, Positions, put_in_order};
use rt_view::Job;
use std::alloc::Global;

/// The names of the template upwards at the columns, in its order, each once. The one error is a want of memory. (This project's own.)
pub fn rows_v(alloc: Global, job: &Job, columns: &Positions) -> Result<List<Name>, OutOfMemory>
    requires job { IsJob job.now }
    requires columns { HaveColumns job.now columns.now }
    ensures { IfOk result (ListsNames (HasUpwards job.now (places columns.now))) }
{
    let names = all_names(alloc, job, columns)?;
    let sorted = put_in_order(alloc, names)?;
    Ok(sorted)
}

// The names of the template upwards at the columns, in any order.
fn all_names(alloc: Global, job: &Job, columns: &Positions) -> Result<List<Name>, OutOfMemory>
    requires job { IsJob job.now }
    requires columns { HaveColumns job.now columns.now }
    ensures { IfOk result (HoldsExactly (HasUpwards job.now (places columns.now))) }
{
    let mut names = column_names(alloc, job, columns)?;
    add_of_source(alloc, &mut names, job)?;
    add_near(alloc, &mut names, job, columns)?;
    add_between(alloc, &mut names, job, columns)?;
    Ok(names)
}

// Adds the names that the source alone tells: of the whole, of each strip, and of each two of which one stands on the other.
fn add_of_source(alloc: Global, names: &mut List<Name>, job: &Job) -> Result<(), OutOfMemory>
    requires job { IsJob job.now }
    ensures { OnOk result (AreAdded (IsOfSource job.now) names.old names.new) }
{
    add_of_whole(names)?;
    add_of_strips(names, job.view.strips.list.as_slice().len() as u32)?;
    add_standing(alloc, names, &job.view.strips)?;
    Ok(())
}

// Adds the names of the gaps between strips that are near each other in the columns, where the one is clear above the other.
fn add_near(
    alloc: Global,
    names: &mut List<Name>,
    job: &Job,
    columns: &Positions,
) -> Result<(), OutOfMemory>
    requires job { IsJob job.now }
    requires columns { HaveColumns job.now columns.now }
    ensures { OnOk result (AreAdded (IsOfTwo (IsOfNear job.now (places columns.now))) names.old names.new) }
{
    let pairs = near_strips(alloc, job, columns)?;
    add_of_pairs(names, job, pairs.as_slice())?;
    Ok(())
}
