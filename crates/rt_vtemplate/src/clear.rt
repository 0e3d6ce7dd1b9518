//! Strips that lie above others and aren't climbed from them.
ghost use Rattle.std.specs.Prelude.{◌<◌, length, All, MatchBool, OnOk};
ghost use Rattle.rt_view.specs.Job.{strips_of};
ghost use Rattle.rt_strips.specs.Table.{AreClimbsOf};
ghost use Rattle.rt_vtemplate.specs.Added.{AreAdded, IsOfFirst};
ghost use Rattle.rt_vtemplate.specs.Kinds.{IsClearAbove, IsOfClear, IsOfPair};
ghost use Rattle.rt_vtemplate.specs.Steps.{ArePaired, IsOfPairAt};

use rt_base::{List, OutOfMemory};
use rt_rows::Name;
use rt_view::Job;

/// Adds the names of the gaps between two strips of each pair, where the one lies above the other and isn't climbed from it.
pub(crate) fn add_of_pairs(
    names: &mut List<Name>,
    job: &Job,
    pairs: &[(u32, u32)],
) -> Result<(), OutOfMemory>
    requires climbs { AreClimbsOf (strips_of job.now) job.now.climbs }
    requires pairs { All (ArePaired (strips_of job.now)) pairs.now }
    ensures { OnOk result (AreAdded (IsOfFirst (IsOfPairAt (strips_of job.now) pairs.now) (length pairs.now)) names.old names.new) }
{
    for pair in pairs {
        add_of_pair(names, job, pair.0, pair.1)?;
    }
    Ok(())
}

// Adds the name of the gap between two strips, where the one lies above the other and isn't climbed from it.
fn add_of_pair(names: &mut List<Name>, job: &Job, i: u32, j: u32) -> Result<(), OutOfMemory>
    requires climbs { AreClimbsOf (strips_of job.now) job.now.climbs }
    requires first { i < length job.now.view.strips.list }
    requires second { j < length job.now.view.strips.list }
    ensures { OnOk result (AreAdded (IsOfPair (strips_of job.now) i j) names.old names.new) }
{
    add_of_clear(names, job, i, j)?;
    add_of_clear(names, job, j, i)?;
    Ok(())
}

// Adds the name of the gap between two strips, if the second lies above the first and isn't climbed from it.
fn add_of_clear(names: &mut List<Name>, job: &Job, i: u32, j: u32) -> Result<(), OutOfMemory>
    requires climbs { AreClimbsOf (strips_of job.now) job.now.climbs }
    requires first { i < length job.now.view.strips.list }
    requires second { j < length job.now.view.strips.list }
    ensures { OnOk result (AreAdded (IsOfClear (strips_of job.now) i j) names.old names.new) }
{
    if is_clear_above(job, i, j) {
        names.push(Name::Gap(i, j))?;
    }
    Ok(())
}

// Whether the second strip lies above the first and isn't climbed from it.
fn is_clear_above(job: &Job, i: u32, j: u32) -> bool
    requires climbs { AreClimbsOf (strips_of job.now) job.now.climbs }
    requires first { i < length job.now.view.strips.list }
    requires second { j < length job.now.view.strips.list }
    ensures { MatchBool result (IsClearAbove (strips_of job.now) i j) (¬ IsClearAbove (strips_of job.now) i j) }
{
    let strips = job.view.strips.list.as_slice();
    let lower = &strips[i as usize];
    let upper = &strips[j as usize];
    lower.at.y2 <= upper.at.y1 && !job.climbs.has(i, j)
}
