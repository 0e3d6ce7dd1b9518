//! Names of rows by cuts, enclosures and distances between masks.
ghost use Rattle.std.specs.Prelude.{◌≡◌, ◌<◌, length, map, IfOk, OnOk};
ghost use Rattle.rt_rows.specs.Places.{places};
ghost use Rattle.rt_view.specs.Job.{IsJob};
ghost use Rattle.rt_template.specs.Vertical.{HaveColumns};
ghost use Rattle.rt_between.specs.Offers.{AreOffered, AreOfferedBy, AreOfferedFor};
ghost use Rattle.rt_between.specs.Pairing.{side_of};
ghost use Rattle.rt_vtemplate.specs.Steps.{AreColumnsOf};
ghost use Rattle.rt_vtemplate.specs.Between.{IsOfDistance, IsOfEnclosure, names_of_cut, names_off_at, names_in_at, HoldBetween, AreThoseAdded, AreBetweenAdded};

use crate::nearby::all_columns;
use crate::single::has_name;
use rt_base::{List, OutOfMemory};
use rt_between::{add_names, apart_number, host_pairs, near_of_two, rows_of};
use rt_near::Sides;
use rt_rows::{Name, Positions};
use rt_view::Job;
use std::alloc::Global;

/// Adds the names of the sizes of cuts, of distances and of enclosures.
pub(crate) fn add_between(
    alloc: Global,
    names: &mut List<Name>,
    job: &Job,
    columns: &Positions,
) -> Result<(), OutOfMemory>
    requires job { IsJob job.now }
    requires columns { HaveColumns job.now columns.now }
    ensures { OnOk result (AreBetweenAdded job.now (places columns.now) names.old names.new) }
{
    let offered = offered(alloc, job, columns)?;
    add_those_there(names, job, columns, offered.as_slice())
}

// Adds those of the names that the template has.
fn add_those_there(
    names: &mut List<Name>,
    job: &Job,
    columns: &Positions,
    offered: &[Name],
) -> Result<(), OutOfMemory>
    requires job { IsJob job.now }
    requires columns { HaveColumns job.now columns.now }
    ensures { OnOk result (AreThoseAdded job.now (places columns.now) offered.now (length offered.now) names.old names.new) }
{
    for name in offered {
        if has_name(job, columns, name) {
            names.push(*name)?;
        }
    }
    Ok(())
}

// Names among which are those of the sizes of cuts, of distances and of enclosures.
fn offered(alloc: Global, job: &Job, columns: &Positions) -> Result<List<Name>, OutOfMemory>
    requires job { IsJob job.now }
    requires columns { HaveColumns job.now columns.now }
    ensures { IfOk result (HoldBetween job.now (places columns.now)) }
{
    let mut names = List::new(alloc);
    add_of_cuts(&mut names, job.view.strips.list.as_slice().len() as u32)?;
    add_of_distances(alloc, &mut names, job, columns)?;
    add_of_enclosures(alloc, &mut names, job)?;
    Ok(names)
}

// Adds the names of the sizes of so many strips, as if all were of cuts.
fn add_of_cuts(names: &mut List<Name>, count: u32) -> Result<(), OutOfMemory>
    ensures { OnOk result (AreOffered names_of_cut count names.old names.new) }
{
    for i in 0..count {
        add_names(names, &[Name::Size(i)])?;
    }
    Ok(())
}

// Adds the names for each two strips that keep a distance of the source's table.
fn add_of_distances(
    alloc: Global,
    names: &mut List<Name>,
    job: &Job,
    columns: &Positions,
) -> Result<(), OutOfMemory>
    requires job { IsJob job.now }
    requires columns { HaveColumns job.now columns.now }
    ensures { OnOk result (AreOfferedFor (IsOfDistance job.now (places columns.now)) (length job.now.source.aparts) names.old names.new) }
{
    let sides = all_columns(alloc, job, columns)?;
    for q in 0..job.source.aparts.as_slice().len() as u32 {
        add_of_distance(alloc, names, job, columns, sides.as_slice(), q)?;
    }
    Ok(())
}

// Adds the names for each two strips that keep this distance.
fn add_of_distance(
    alloc: Global,
    names: &mut List<Name>,
    job: &Job,
    columns: &Positions,
    sides: &[Sides],
    q: u32,
) -> Result<(), OutOfMemory>
    requires job { IsJob job.now }
    requires columns { HaveColumns job.now columns.now }
    requires sides { AreColumnsOf job.now (places columns.now) (length job.now.view.strips.list) sides.now }
    requires there { q < length job.now.source.aparts }
    ensures { OnOk result (AreOfferedBy (IsOfDistance job.now (places columns.now) q) names.old names.new) }
{
    let apart = &job.source.aparts.as_slice()[q as usize];
    let pairs = near_of_two(alloc, sides, apart.a, apart.b, apart_number(&job.target, q))?;
    add_off(names, q, pairs.as_slice())
}

// Adds the names for these pairs.
fn add_off(names: &mut List<Name>, q: u32, pairs: &[(u32, u32)]) -> Result<(), OutOfMemory>
    ensures { OnOk result (AreOffered (names_off_at q pairs.now) (length pairs.now) names.old names.new) }
{
    for pair in pairs {
        add_names(
            names,
            &[Name::Off(q, pair.0, pair.1), Name::Off(q, pair.1, pair.0)],
        )?;
    }
    Ok(())
}

// Adds the names for each strip with each of its hosts under an enclosure of the source's table.
fn add_of_enclosures(alloc: Global, names: &mut List<Name>, job: &Job) -> Result<(), OutOfMemory>
    requires job { IsJob job.now }
    ensures { OnOk result (AreOfferedFor (IsOfEnclosure job.now) (length job.now.source.encloses) names.old names.new) }
{
    let rows = rows_of(alloc, job.view.strips.list.as_slice())?;
    for q in 0..job.source.encloses.as_slice().len() as u32 {
        add_of_enclosure(alloc, names, job, rows.as_slice(), q)?;
    }
    Ok(())
}

// Adds the names for each strip with each of its hosts under this enclosure.
fn add_of_enclosure(
    alloc: Global,
    names: &mut List<Name>,
    job: &Job,
    rows: &[Sides],
    q: u32,
) -> Result<(), OutOfMemory>
    requires job { IsJob job.now }
    requires rows { rows.now ≡ map side_of job.now.view.strips.list }
    requires there { q < length job.now.source.encloses }
    ensures { OnOk result (AreOfferedBy (IsOfEnclosure job.now q) names.old names.new) }
{
    let pairs = host_pairs(alloc, job, rows, q)?;
    add_in(names, q, pairs.as_slice())
}

// Adds the names for these pairs.
fn add_in(names: &mut List<Name>, q: u32, pairs: &[(u32, u32)]) -> Result<(), OutOfMemory>
    ensures { OnOk result (AreOffered (names_in_at q pairs.now) (length pairs.now) names.old names.new) }
{
    for pair in pairs {
        add_names(
            names,
            &[
                Name::Inb(q, pair.0, pair.1),
                Name::Inb(q, pair.1, pair.0),
                Name::Int(q, pair.0, pair.1),
                Name::Int(q, pair.1, pair.0),
            ],
        )?;
    }
    Ok(())
}
