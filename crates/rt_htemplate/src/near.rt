//! Strips that are near each other in rows.
ghost use Rattle.std.specs.Prelude.{◌≡◌, map, IfOk};
ghost use Rattle.rt_view.specs.Job.{IsJob};
ghost use Rattle.rt_htemplate.specs.Near.{space_in, HoldKeptPairs};

use rt_base::{List, OutOfMemory};
use rt_between::rows_of;
use rt_near::near_pairs;
use rt_tech::Tech;
use rt_view::Job;
use std::alloc::Global;

// The numbers of strips of one mask between which fewer rows lie than the source's space: among them each two that keep their distance across.
pub(crate) fn near_strips(alloc: Global, job: &Job) -> Result<List<(u32, u32)>, OutOfMemory>
    requires job { IsJob job.now }
    ensures { IfOk result (HoldKeptPairs job.now) }
{
    let sides = rows_of(alloc, job.view.strips.list.as_slice())?;
    let spaces = spaces_of(alloc, &job.source)?;
    near_pairs(alloc, sides.as_slice(), spaces.as_slice())
}

// The spaces of the masks.
fn spaces_of(alloc: Global, tech: &Tech) -> Result<Vec<i64>, OutOfMemory>
    ensures { IfOk result (λ spaces. spaces.items ≡ map space_in tech.now.masks) }
{
    let spaces = tech
        .masks
        .as_slice()
        .iter()
        .map(|mask| mask.space)
        .collect(alloc)?;
    Ok(spaces)
}
