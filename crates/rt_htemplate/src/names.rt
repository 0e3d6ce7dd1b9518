//! The names of the template across.
ghost use Rattle.std.specs.Prelude.{IfOk};
ghost use Rattle.rt_rows.specs.Order.{ListsNames};
ghost use Rattle.rt_view.specs.Job.{IsJob};
ghost use Rattle.rt_template.specs.Horizontal.{HasAcross};
ghost use Rattle.rt_htemplate.specs.Candidates.{AreThoseThere};

use crate::across::has_name_h;
use crate::candidates::candidates;
use rt_base::{List, OutOfMemory};
use rt_rows::{Name, put_in_order};
use rt_view::Job;
use std::alloc::Global;

/// The names of the template across, in its order, each once. It takes the time of a sort of the strips, of their seams and of the pairs that
/// are near each other in rows. The one error is a want of memory. (This project's own.)
pub fn rows_h(alloc: Global, job: &Job) -> Result<List<Name>, OutOfMemory>
    requires job { IsJob job.now }
    ensures { IfOk result (ListsNames (HasAcross job.now)) }
{
    let offered = candidates(alloc, job)?;
    let names = those_there(alloc, job, offered.as_slice())?;
    put_in_order(alloc, names)
}

// Those of the names that the template has.
fn those_there(alloc: Global, job: &Job, offered: &[Name]) -> Result<List<Name>, OutOfMemory>
    requires job { IsJob job.now }
    ensures { IfOk result (AreThoseThere job.now offered.now) }
{
    let mut names = List::new(alloc);
    for name in offered {
        if has_name_h(job, *name) {
            names.push(*name)?;
        }
    }
    Ok(names)
}
