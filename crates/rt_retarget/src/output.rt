//! The output: the drawing of a job at its least positions, and its stream.
ghost use Rattle.std.specs.Prelude.{◌<◌, ◌≤◌, length, IfOk, IfErr};
ghost use Rattle.rt_view.specs.Job.{strips_of, IsJob};
ghost use Rattle.rt_place.specs.Placing.{ArePositionsOf, IsPlaceErrorOf};
ghost use Rattle.rt_retarget.specs.declared.source.TheConstants.{STRIP_LIMIT};
ghost use Rattle.rt_retarget.specs.Jobs.{LabelsFit, IsDrawnFor, IsWrittenFor};

use gds_stream::{Flat, write_stream};
use rt_base::{OutOfMemory, Text};
use rt_carry::draw;
use rt_place::{PlaceError, place};
use rt_rows::Positions;
use rt_view::Job;
use std::alloc::Global;

/// The stream of the drawing of a job at its least positions, in the library and under the cell's name; or the axis along which it has none.
pub fn stream_of(
    alloc: Global,
    job: &Job,
    library: &Text,
    cell: &Text,
) -> Result<Vec<u8>, PlaceError>
    requires job { IsJob job.now }
    requires labels { LabelsFit job.now }
    requires few { length (strips_of job.now) ≤ STRIP_LIMIT }
    requires named { 0 < length cell.now }
    requires cell_short { length cell.now ≤ 65530 }
    requires library_short { length library.now ≤ 65530 }
    ensures written { IfOk result (λ bytes. IsWrittenFor job.now library.now cell.now bytes.items) }
    ensures none { IfErr result (IsPlaceErrorOf job.now) }
{
    let at = place(alloc, job)?;
    let bytes = drawn_stream(alloc, job, &at, library, cell)?;
    Ok(bytes)
}

// The stream of the drawing at the positions.
#[tactic(auto, using(crate::proofs::Texts::texts_short))]
fn drawn_stream(
    alloc: Global,
    job: &Job,
    at: &Positions,
    library: &Text,
    cell: &Text,
) -> Result<Vec<u8>, OutOfMemory>
    requires job { IsJob job.now }
    requires labels { LabelsFit job.now }
    requires positions { ArePositionsOf job.now at.now }
    requires named { 0 < length cell.now }
    requires cell_short { length cell.now ≤ 65530 }
    requires library_short { length library.now ≤ 65530 }
    ensures { IfOk result (λ bytes. IsWrittenFor job.now library.now cell.now bytes.items) }
{
    let flat = drawing_of(alloc, job, at, library, cell)?;
    write_stream(alloc, &flat)
}

// The drawing at the positions.
fn drawing_of(
    alloc: Global,
    job: &Job,
    at: &Positions,
    library: &Text,
    cell: &Text,
) -> Result<Flat, OutOfMemory>
    requires job { IsJob job.now }
    requires labels { LabelsFit job.now }
    requires positions { ArePositionsOf job.now at.now }
    ensures { IfOk result (IsDrawnFor job.now library.now cell.now) }
{
    let flat = draw(alloc, job, at, library, cell)?;
    Ok(flat)
}
