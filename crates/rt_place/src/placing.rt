//! The positions of a job, one axis after the other.
ghost use Rattle.std.specs.Prelude.{◌≡◌, ◌≤◌, length, IfOk, IfErr};
ghost use Rattle.rt_view.specs.Job.{strips_of, IsJob};
ghost use Rattle.rt_place.specs.Placing.{ArePositionsOf, IsPlaceErrorOf, AreColumnsOf, AreHeightsOf, joined_of};

use crate::rows::{rows_across, rows_upwards};
use rt_base::{Axis, OutOfMemory};
use rt_path::{PathError, longest};
use rt_rows::Positions;
use rt_view::Job;
use std::alloc::Global;

/// The most strips that are placed. (This project's own.)
pub const STRIPS_PLACED: usize = 8192;

/// Why a job has no positions. (This project's own.)
#[derive(Drop)]
pub enum PlaceError {
    /// No positions meet the template of the axis; upwards none do at the least columns.
    NoneMeet {
        /// The axis.
        axis: Axis,
    },
    /// There was no memory for them.
    OutOfMemory,
}

impl From<OutOfMemory> for PlaceError {
    ghost use Rattle.rt_place.specs.declared.placing.PlaceError.TheVariants.{OutOfMemory as NoMemory};

    ghost from_gives = { λ _ error. error ≡ NoMemory };

    fn from(_error: OutOfMemory) -> PlaceError {
        PlaceError::OutOfMemory
    }
}

/// The least positions of a job, in target steps: those that meet the template across at the least extent, each side at the least place that it
/// has in any that do, and at these columns the same upwards. `NoneMeet` where none meet the template of that axis; `OutOfMemory` only for want
/// of memory. (This project's own.)
pub fn place(alloc: Global, job: &Job) -> Result<Positions, PlaceError>
    requires job { IsJob job.now }
    requires few { length (strips_of job.now) ≤ STRIPS_PLACED }
    ensures placed { IfOk result (ArePositionsOf job.now) }
    ensures refused { IfErr result (IsPlaceErrorOf job.now) }
{
    let columns = place_across(alloc, job)?;
    let heights = place_upwards(alloc, job, &columns)?;
    Ok(joined(columns, heights))
}

// The least columns.
fn place_across(alloc: Global, job: &Job) -> Result<Positions, PlaceError>
    requires job { IsJob job.now }
    ensures placed { IfOk result (AreColumnsOf job.now) }
    ensures refused { IfErr result (IsPlaceErrorOf job.now) }
{
    let rows = rows_across(alloc, job)?;
    match longest(alloc, rows.as_slice(), Axis::Across) {
        Ok((columns, _proof)) => Ok(columns),
        Err(PathError::Refuted { .. }) => Err(PlaceError::NoneMeet { axis: Axis::Across }),
        Err(PathError::OutOfMemory) => Err(PlaceError::OutOfMemory),
    }
}

// The least bottoms and tops at the columns.
fn place_upwards(alloc: Global, job: &Job, columns: &Positions) -> Result<Positions, PlaceError>
    requires job { IsJob job.now }
    requires columns { AreColumnsOf job.now columns.now }
    ensures placed { IfOk result (AreHeightsOf job.now columns.now) }
    ensures refused { IfErr result (IsPlaceErrorOf job.now) }
{
    let rows = rows_upwards(alloc, job, columns)?;
    match longest(alloc, rows.as_slice(), Axis::Upwards) {
        Ok((heights, _proof)) => Ok(heights),
        Err(PathError::Refuted { .. }) => Err(PlaceError::NoneMeet {
            axis: Axis::Upwards,
        }),
        Err(PathError::OutOfMemory) => Err(PlaceError::OutOfMemory),
    }
}

// The columns, and the heights at them, as positions.
fn joined(columns: Positions, heights: Positions) -> Positions
    ensures { result ≡ joined_of columns heights }
{
    Positions {
        l: columns.l,
        r: columns.r,
        b: heights.b,
        t: heights.t,
        width: columns.width,
        height: heights.height,
        axis: None,
    }
}
