//! Strips that are near each other in the columns of a drawing.
ghost use Rattle.std.specs.Prelude.{◌≡◌, ◌<◌, length, map, IfOk, IsPermutation};
ghost use Rattle.rt_rows.specs.Places.{places};
ghost use Rattle.rt_tech.specs.declared.table.Mask.{Mask};
ghost use Rattle.rt_view.specs.Job.{IsJob};
ghost use Rattle.rt_template.specs.Vertical.{HaveColumns};
ghost use Rattle.rt_vtemplate.specs.Steps.{columns_of, AreColumnsOf, ListsNearStrips};

use rt_base::{List, OutOfMemory};
use rt_near::{Sides, near_pairs};
use rt_rows::Positions;
use rt_tech::Tech;
use rt_view::Job;
use std::alloc::Global;

/// The numbers of each two strips of one mask between which fewer columns lie in the drawing than the mask's space in the target,
/// the smaller number first. The one error is a want of memory.
pub(crate) fn near_strips(
    alloc: Global,
    job: &Job,
    columns: &Positions,
) -> Result<List<(u32, u32)>, OutOfMemory>
    requires job { IsJob job.now }
    requires columns { HaveColumns job.now columns.now }
    ensures { IfOk result (ListsNearStrips job.now (places columns.now)) }
{
    let sides = all_columns(alloc, job, columns)?;
    let reaches = spaces(alloc, &job.target)?;
    let pairs = near_pairs(alloc, sides.as_slice(), reaches.as_slice())?;
    let ordered = in_order(alloc, pairs.as_slice())?;
    Ok(ordered)
}

// The same pairs in order of their numbers, so that the names that are made of them stand in order already.
fn in_order(alloc: Global, pairs: &[(u32, u32)]) -> Result<List<(u32, u32)>, OutOfMemory>
    ensures { IfOk result (λ ordered. IsPermutation pairs.now ordered) }
{
    let mut ordered: Vec<(u32, u32)> = pairs.iter().copied().collect(alloc)?;
    ordered.sort()?;
    Ok(List::of(ordered))
}

// The columns of each strip in the drawing.
pub(crate) fn all_columns(
    alloc: Global,
    job: &Job,
    columns: &Positions,
) -> Result<Vec<Sides>, OutOfMemory>
    requires columns { HaveColumns job.now columns.now }
    ensures { IfOk result (λ sides. AreColumnsOf job.now (places columns.now) (length job.now.view.strips.list) sides.items) }
{
    let mut sides = Vec::new(alloc);
    for i in 0..job.view.strips.list.as_slice().len() {
        sides.push(columns_at(job, columns, i))?;
    }
    Ok(sides)
}

/// The columns of strip i in the drawing.
pub(crate) fn columns_at(job: &Job, columns: &Positions, i: usize) -> Sides
    requires there { i < length job.now.view.strips.list }
    requires columns { HaveColumns job.now columns.now }
    ensures { result ≡ columns_of job.now (places columns.now) i }
{
    Sides {
        group: job.view.strips.list.as_slice()[i].mask,
        low: columns.l.as_slice()[i],
        high: columns.r.as_slice()[i],
    }
}

// The space of each mask of a table.
fn spaces(alloc: Global, tech: &Tech) -> Result<Vec<i64>, OutOfMemory>
    ensures { IfOk result (λ spaces. spaces.items ≡ map (λ (mask : Mask). mask.space) tech.now.masks) }
{
    let mut spaces = Vec::new(alloc);
    for mask in tech.masks.as_slice() {
        spaces.push(mask.space)?;
    }
    Ok(spaces)
}
