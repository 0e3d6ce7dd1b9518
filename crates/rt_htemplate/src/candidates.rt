//! Names among which are all of the template across.
ghost use Rattle.std.specs.Prelude.{◌≡◌, ◌<◌, ◌^◌, ◌++◌, length, map, IfOk, OnOk};
ghost use Rattle.rt_view.specs.Job.{IsJob};
ghost use Rattle.rt_strips.specs.Placed.{placed};
ghost use Rattle.rt_strips.specs.StripsOf.{AreStrips};
ghost use Rattle.rt_htemplate.specs.Candidates.{names_of_strip, names_at_seam, names_at_pair, AreOfferedAtSeams, AreOfferedForKept, HoldAllNames};
ghost use Rattle.rt_between.specs.Offers.{AreOffered};
ghost use Rattle.rt_htemplate.specs.Wanted.{AreOfferedBetween};

use crate::distances::add_of_distances;
use crate::enclosures::add_of_enclosures;
use crate::near::near_strips;
use rt_base::{List, OutOfMemory};
use rt_between::{add_names, rows_of};
use rt_rows::Name;
use rt_strips::{Seam, Strip, seams};
use rt_view::Job;
use std::alloc::Global;

// Names among which are all of the template: those of each strip, of each seam, of each two strips that are near in rows,
// and those by distances and enclosures.
pub(crate) fn candidates(alloc: Global, job: &Job) -> Result<List<Name>, OutOfMemory>
    requires job { IsJob job.now }
    ensures { IfOk result (HoldAllNames job.now) }
{
    let list = job.view.strips.list.as_slice();
    let mut names = List::new(alloc);
    add_names(&mut names, &[Name::Zero, Name::Top])?;
    add_of_strips(&mut names, list.len() as u32)?;
    add_of_seams(alloc, &mut names, list)?;
    add_of_kept(alloc, &mut names, job)?;
    add_between(alloc, &mut names, job)?;
    Ok(names)
}

// Adds the names by the distances and the enclosures of the source's table.
fn add_between(alloc: Global, names: &mut List<Name>, job: &Job) -> Result<(), OutOfMemory>
    requires job { IsJob job.now }
    ensures { OnOk result (AreOfferedBetween job.now names.old names.new) }
{
    let rows = rows_of(alloc, job.view.strips.list.as_slice())?;
    add_of_distances(alloc, names, job, rows.as_slice())?;
    add_of_enclosures(alloc, names, job, rows.as_slice())
}

// Adds the names for each seam of the strips.
fn add_of_seams(alloc: Global, names: &mut List<Name>, strips: &[Strip]) -> Result<(), OutOfMemory>
    requires few { length strips.now < 2 ^ 32 }
    requires strips { AreStrips (map placed strips.now) }
    ensures { OnOk result (AreOfferedAtSeams (map placed strips.now) names.old names.new) }
{
    let seams = seams(alloc, strips)?;
    add_at_seams(names, seams.as_slice())
}

// Adds the names for each two strips that keep their distance.
fn add_of_kept(alloc: Global, names: &mut List<Name>, job: &Job) -> Result<(), OutOfMemory>
    requires job { IsJob job.now }
    ensures { OnOk result (AreOfferedForKept job.now names.old names.new) }
{
    let pairs = near_strips(alloc, job)?;
    add_at_pairs(names, pairs.as_slice())
}

// Adds the names for so many strips.
fn add_of_strips(names: &mut List<Name>, count: u32) -> Result<(), OutOfMemory>
    ensures { OnOk result (AreOffered names_of_strip count names.old names.new) }
{
    for i in 0..count {
        add_names(
            names,
            &[Name::Lo(i), Name::Hi(i), Name::Wide(i), Name::Size(i)],
        )?;
    }
    Ok(())
}

// Adds the names for these seams.
fn add_at_seams(names: &mut List<Name>, seams: &[Seam]) -> Result<(), OutOfMemory>
    ensures { OnOk result (AreOffered (names_at_seam seams.now) (length seams.now) names.old names.new) }
{
    for seam in seams {
        let i = seam.below;
        let j = seam.above;
        add_names(
            names,
            &[
                Name::Ll(i, j),
                Name::Ll(j, i),
                Name::Rr(i, j),
                Name::Rr(j, i),
                Name::Share(i, j),
                Name::Share(j, i),
            ],
        )?;
    }
    Ok(())
}

// Adds the names for these pairs.
fn add_at_pairs(names: &mut List<Name>, pairs: &[(u32, u32)]) -> Result<(), OutOfMemory>
    ensures { OnOk result (AreOffered (names_at_pair pairs.now) (length pairs.now) names.old names.new) }
{
    for pair in pairs {
        add_names(
            names,
            &[Name::Gap(pair.0, pair.1), Name::Gap(pair.1, pair.0)],
        )?;
    }
    Ok(())
}
