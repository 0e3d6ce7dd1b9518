//! The positions that the last events give, and the proof that the extent is least.
ghost use Rattle.std.specs.Prelude.{◌≡◌, ◌+◌, ◌≤◌, length, Some, IfOk};
ghost use Rattle.rt_path.specs.Raises.{IsGoing, last_at};
ghost use Rattle.rt_path.specs.WaysBack.{IsCircle, LeadsOn};
ghost use Rattle.rt_path.specs.Steps.{value_of, AreValues, ArePositions, HaveValues, IsBoundBy, IsRefutedBy, HasLast};

use crate::event::{Event, Last, Step};
use crate::ways_back::chain;
use rt_base::{Axis, List, OutOfMemory};
use rt_rows::{Node, Positions, Proof, Share};
use std::alloc::Global;

/// The positions along the axis that the last events of the places give.
pub fn positions(
    alloc: Global,
    axis: Axis,
    now: &[Option<Last>],
    count: usize,
) -> Result<Positions, OutOfMemory>
    requires places { length now.now ≡ 2 + count + count }
    ensures { IfOk result (λ at. HaveValues axis count now.now at) }
{
    let lows = values_of(alloc, now, 2, count)?;
    let highs = values_of(alloc, now, 2 + count, count)?;
    let extent = value_of(&now[1]);
    Ok(along(alloc, axis, lows, highs, extent))
}

// The values of so many places from the given one on.
fn values_of(
    alloc: Global,
    now: &[Option<Last>],
    from: usize,
    count: usize,
) -> Result<List<i64>, OutOfMemory>
    requires within { from + count ≤ length now.now }
    ensures { IfOk result (λ values. AreValues now.now from count values) }
{
    let mut values = List::new(alloc);
    for i in 0..count {
        values.push(value_of(&now[from + i]))?;
    }
    Ok(values)
}

// The value of a place, 0 where it has none.
fn value_of(last: &Option<Last>) -> i64
    ensures { result ≡ value_of last.now }
{
    match last {
        Some(last) => last.value,
        None => 0,
    }
}

// Positions along one axis alone.
fn along(alloc: Global, axis: Axis, lows: List<i64>, highs: List<i64>, extent: i64) -> Positions
    ensures { ArePositions axis lows highs extent result }
{
    let (none, nothing) = (List::new(alloc), List::new(alloc));
    match axis {
        Axis::Across => Positions {
            l: lows,
            r: highs,
            b: none,
            t: nothing,
            width: extent,
            height: 0,
            axis: None,
        },
        Axis::Upwards => Positions {
            l: none,
            r: nothing,
            b: lows,
            t: highs,
            width: 0,
            height: extent,
            axis: None,
        },
    }
}

/// The rows that lead to the extent are the proof that it is least.
pub fn bound(
    alloc: Global,
    steps: &[Step],
    log: &[Event],
    now: &[Option<Last>],
) -> Result<Proof, OutOfMemory>
    requires going { IsGoing (length now.now) steps.now log.now now.now }
    requires extent { HasLast now.now 1 }
    ensures { IfOk result (λ proof. IsBoundBy steps.now now.now proof) }
{
    let Some(last) = now[1] else { unreachable!() };
    let shares = chain(alloc, steps, log, last.event)?;
    let mut nodes = List::new(alloc);
    nodes.push(Node::Bound { over: 1, shares })?;
    Ok(Proof { nodes })
}

/// The rows of a circle with a gain are the proof that no positions meet the rows.
pub fn refutation(alloc: Global, shares: List<Share>) -> Result<Proof, OutOfMemory>
    ensures { IfOk result (λ proof. IsRefutedBy shares proof) }
{
    let mut nodes = List::new(alloc);
    nodes.push(Node::Empty { over: 1, shares })?;
    Ok(Proof { nodes })
}
