//! Names of rows by the enclosures of cuts.
ghost use Rattle.std.specs.Prelude.{◌≡◌, ◌<◌, length, map, OnOk};
ghost use Rattle.rt_view.specs.Job.{IsJob};
ghost use Rattle.rt_htemplate.specs.Candidates.{names_in_at};
ghost use Rattle.rt_between.specs.Pairing.{side_of};
ghost use Rattle.rt_htemplate.specs.Wanted.{IsOfEnclosure};
ghost use Rattle.rt_between.specs.Offers.{AreOffered, AreOfferedBy, AreOfferedFor};

use rt_base::{List, OutOfMemory};
use rt_between::{add_names, host_pairs};
use rt_near::Sides;
use rt_rows::Name;
use rt_view::Job;
use std::alloc::Global;

// Adds the names for each strip with each of its hosts under an enclosure of the source's table.
pub(crate) fn add_of_enclosures(
    alloc: Global,
    names: &mut List<Name>,
    job: &Job,
    rows: &[Sides],
) -> Result<(), OutOfMemory>
    requires job { IsJob job.now }
    requires rows { rows.now ≡ map side_of job.now.view.strips.list }
    ensures { OnOk result (AreOfferedFor (IsOfEnclosure job.now) (length job.now.source.encloses) names.old names.new) }
{
    for q in 0..job.source.encloses.as_slice().len() as u32 {
        add_of_enclosure(alloc, names, job, rows, q)?;
    }
    Ok(())
}

// Adds the names for each strip with each of its hosts under this enclosure.
fn add_of_enclosure(
    alloc: Global,
    names: &mut List<Name>,
    job: &Job,
    rows: &[Sides],
    q: u32,
) -> Result<(), OutOfMemory>
    requires job { IsJob job.now }
    requires rows { rows.now ≡ map side_of job.now.view.strips.list }
    requires there { q < length job.now.source.encloses }
    ensures { OnOk result (AreOfferedBy (IsOfEnclosure job.now q) names.old names.new) }
{
    let pairs = host_pairs(alloc, job, rows, q)?;
    add_in(names, q, pairs.as_slice())
}

// Adds the names for these pairs.
fn add_in(names: &mut List<Name>, q: u32, pairs: &[(u32, u32)]) -> Result<(), OutOfMemory>
    ensures { OnOk result (AreOffered (names_in_at q pairs.now) (length pairs.now) names.old names.new) }
{
    for pair in pairs {
        add_names(
            names,
            &[
                Name::Inl(q, pair.0, pair.1),
                Name::Inl(q, pair.1, pair.0),
                Name::Inr(q, pair.0, pair.1),
                Name::Inr(q, pair.1, pair.0),
            ],
        )?;
    }
    Ok(())
}
