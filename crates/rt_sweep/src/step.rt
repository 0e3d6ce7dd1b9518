//! One step of a sweep: the next slab, and the bars that cross it.
ghost use Rattle.std.specs.Prelude.{IfOk, MatchOption};
ghost use Rattle.rt_sweep.specs.Rows.{IsSwept, NoneIsLeft};
ghost use Rattle.rt_sweep.specs.Steps.{IsStep};

use crate::bar::Bar;
use crate::merge::merge;
use crate::rows::{bottom_at, end_of_row, least_top, next_bottom};
use rt_base::OutOfMemory;

/// Rows at which no rectangle begins or ends: those from `bottom` up to, and without, `top`.
#[derive(Clone, Copy, Drop)]
pub struct Slab {
    /// The lowest row.
    pub bottom: i64,
    /// The row above the highest one.
    pub top: i64,
}

// A slab, and the place of the first bar above it.
#[derive(Clone, Copy, Drop)]
pub(crate) struct Step {
    pub(crate) slab: Slab,
    pub(crate) end: usize,
}

// The next slab of a sweep that has come to the height; the bars that cross it are written into the buffer. None where no bar is left.
pub(crate) fn step_up(
    bars: &[Bar],
    next: usize,
    height: i64,
    highest: i64,
    active: &[Bar],
    into: &mut Vec<Bar>,
) -> Result<Option<Step>, OutOfMemory>
    requires { IsSwept bars.now next height highest active.now }
    ensures { IfOk result (λ found. MatchOption found
        (NoneIsLeft bars.now next active.now height)
        (λ step. IsStep bars.now height highest active.now step.slab.bottom step.slab.top step.end into.new.items)) }
{
    let Some(bottom) = next_bottom(bars, next, active, height) else {
        return Ok(None);
    };
    let end = end_of_row(bars, next, bottom);
    merge(active, &bars[next..end], bottom, into)?;
    let top = least_top(into.as_slice(), bottom_at(bars, end, highest));
    Ok(Some(Step {
        slab: Slab { bottom, top },
        end,
    }))
}
