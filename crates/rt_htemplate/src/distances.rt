//! Names of rows by the distances between masks.
ghost use Rattle.std.specs.Prelude.{◌≡◌, ◌<◌, length, map, OnOk};
ghost use Rattle.rt_view.specs.Job.{IsJob};
ghost use Rattle.rt_htemplate.specs.Candidates.{names_off_at};
ghost use Rattle.rt_between.specs.Pairing.{side_of};
ghost use Rattle.rt_htemplate.specs.Wanted.{IsOfDistance};
ghost use Rattle.rt_between.specs.Offers.{AreOffered, AreOfferedBy, AreOfferedFor};

use rt_base::{List, OutOfMemory};
use rt_between::{add_names, near_of_two};
use rt_near::Sides;
use rt_rows::Name;
use rt_view::Job;
use std::alloc::Global;

// Adds the names for each two strips that keep a distance of the source's table.
pub(crate) fn add_of_distances(
    alloc: Global,
    names: &mut List<Name>,
    job: &Job,
    rows: &[Sides],
) -> Result<(), OutOfMemory>
    requires job { IsJob job.now }
    requires rows { rows.now ≡ map side_of job.now.view.strips.list }
    ensures { OnOk result (AreOfferedFor (IsOfDistance job.now) (length job.now.source.aparts) names.old names.new) }
{
    for q in 0..job.source.aparts.as_slice().len() as u32 {
        add_of_distance(alloc, names, job, rows, q)?;
    }
    Ok(())
}

// Adds the names for each two strips that keep this distance.
fn add_of_distance(
    alloc: Global,
    names: &mut List<Name>,
    job: &Job,
    rows: &[Sides],
    q: u32,
) -> Result<(), OutOfMemory>
    requires job { IsJob job.now }
    requires rows { rows.now ≡ map side_of job.now.view.strips.list }
    requires there { q < length job.now.source.aparts }
    ensures { OnOk result (AreOfferedBy (IsOfDistance job.now q) names.old names.new) }
{
    let apart = &job.source.aparts.as_slice()[q as usize];
    let pairs = near_of_two(alloc, rows, apart.a, apart.b, apart.number)?;
    add_off(names, q, pairs.as_slice())
}

// Adds the names for these pairs.
fn add_off(names: &mut List<Name>, q: u32, pairs: &[(u32, u32)]) -> Result<(), OutOfMemory>
    ensures { OnOk result (AreOffered (names_off_at q pairs.now) (length pairs.now) names.old names.new) }
{
    for pair in pairs {
        add_names(
            names,
            &[Name::Off(q, pair.0, pair.1), Name::Off(q, pair.1, pair.0)],
        )?;
    }
    Ok(())
}
