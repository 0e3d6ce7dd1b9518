//! The seams of strips, and the strips of the same cells with columns and rows exchanged, with theirs.
ghost use Rattle.std.specs.Prelude.{◌<◌, ◌^◌, length, map, IfOk, OnOk};
ghost use Rattle.rt_strips.specs.Placed.{placed};
ghost use Rattle.rt_strips.specs.Seams.{AreSeamsOf};
ghost use Rattle.rt_strips.specs.StripsOf.{AreStripsOf, AreStrips};
ghost use Rattle.rt_drc.specs.Rows.{cells_of};
ghost use Rattle.rt_drc.specs.Axes.{AreAxesOf};

use crate::turned::turned;
use rt_base::{List, OutOfMemory};
use rt_strips::{Seam, Strip, seams};
use std::alloc::Global;

/// What is made once of strips along rows.
#[derive(Drop)]
pub(crate) struct Axes {
    /// Their seams.
    pub(crate) seams: List<Seam>,
    /// The strips of the same cells with columns and rows exchanged.
    pub(crate) columns: Vec<Strip>,
    /// The seams of these.
    pub(crate) column_seams: List<Seam>,
}

/// The seams of the strips of so many masks, and the same along columns.
pub(crate) fn axes_of(alloc: Global, strips: &[Strip], masks: u32) -> Result<Axes, OutOfMemory>
    requires { AreStripsOf (cells_of strips.now) masks (map placed strips.now) }
    ensures { IfOk result (AreAxesOf masks strips.now) }
{
    let seams = all_seams(alloc, strips)?;
    let columns = turned(alloc, strips, masks)?;
    let column_seams = all_seams(alloc, columns.as_slice())?;
    Ok(Axes {
        seams,
        columns,
        column_seams,
    })
}

// The seams of the strips, which are few enough to be numbered by 32 bits. Of 2^32 strips it is said that there is no memory for them.
fn all_seams(alloc: Global, strips: &[Strip]) -> Result<List<Seam>, OutOfMemory>
    requires { AreStrips (map placed strips.now) }
    ensures seams { IfOk result (AreSeamsOf (map placed strips.now)) }
    ensures few { OnOk result (length strips.now < 2 ^ 32) }
{
    if strips.len() > u32::MAX as usize {
        return Err(OutOfMemory);
    }
    seams(alloc, strips)
}
