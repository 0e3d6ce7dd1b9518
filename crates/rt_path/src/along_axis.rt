//! The least positions along one axis, with proofs.
ghost use Rattle.std.specs.Prelude.{◌≡◌, ◌+◌, ◌<◌, ◌≤◌, ◌^◌, List as ListValue, [], ◌∷◌, None, Some, replicate, slice_set, length, IfOk, IfErr};
ghost use Rattle.rt_path.specs.Longest.{AreDifferences, IsFound, IsCause};
ghost use Rattle.rt_path.specs.Raises.{AllFit, HasEnded, first, origin};
ghost use Rattle.rt_path.specs.WaysBack.{IsBeforeRound};
ghost use Rattle.rt_path.specs.Solved.{ReachesExtent, IsAnswer, IsSetback, HasAnswer};

use crate::event::{Event, Last, Step};
use crate::found::{bound, positions, refutation};
use crate::path_error::PathError;
use crate::rounds::raise_until_met;
use crate::steps::{count_strips, steps_of};
use rt_base::{Axis, OutOfMemory};
use rt_rows::{Name, Positions, Proof, Row};
use std::alloc::Global;

/// The least positions along an axis that meet rows of differences, with a proof that the extent is least; or a proof that none meet them.
/// There is an entry for each strip up to the last one that the rows name. Rows in the order of what they count from take few rounds.
/// (This project's own, after Bellman and Ford.)
pub fn longest(
    alloc: Global,
    rows: &[(Name, Row)],
    axis: Axis,
) -> Result<(Positions, Proof), PathError>
    requires { AreDifferences axis rows.now }
    ensures least { IfOk result (λ found. IsFound axis rows.now found.0 found.1) }
    ensures none { IfErr result (λ error. IsCause axis rows.now error) }
{
    let count = count_strips(rows);
    let steps = steps_of(alloc, rows, count)?;
    solve(alloc, axis, steps.as_slice(), count)
}

// The same of the steps of the rows.
fn solve(
    alloc: Global,
    axis: Axis,
    steps: &[Step],
    count: usize,
) -> Result<(Positions, Proof), PathError>
    requires few { count ≤ 2 ^ 32 }
    requires fit { AllFit (2 + count + count) steps.now }
    requires extent { ReachesExtent steps.now }
    ensures least { IfOk result (λ found. IsAnswer axis count steps.now found.0 found.1) }
    ensures none { IfErr result (λ error. IsSetback count steps.now error) }
{
    let mut log = first_log(alloc)?;
    let mut now = first_now(alloc, 2 + count + count)?;
    run(alloc, axis, steps, &mut log, now.as_mut_slice(), count)
}

// The rounds, from the origin alone, and what they come to.
fn run(
    alloc: Global,
    axis: Axis,
    steps: &[Step],
    log: &mut Vec<Event>,
    now: &mut [Option<Last>],
    count: usize,
) -> Result<(Positions, Proof), PathError>
    requires few { length now.old < 2 ^ 34 }
    requires places { length now.old ≡ 2 + count + count }
    requires fit { AllFit (2 + count + count) steps.now }
    requires extent { ReachesExtent steps.now }
    requires begins { IsBeforeRound (2 + count + count) 0 steps.now log.old.items now.old }
    ensures least { IfOk result (λ found. IsAnswer axis count steps.now found.0 found.1) }
    ensures none { IfErr result (λ error. IsSetback count steps.now error) }
{
    match raise_until_met(alloc, log, now, steps)? {
        Some(shares) => Err(PathError::Refuted {
            proof: refutation(alloc, shares)?,
        }),
        None => {
            let found = answer(alloc, axis, steps, log.as_slice(), now, count)?;
            Ok(found)
        }
    }
}

// The log of the origin alone.
fn first_log(alloc: Global) -> Result<Vec<Event>, OutOfMemory>
    ensures { IfOk result (λ log. log.items ≡ first ∷ []) }
{
    let mut log = Vec::new(alloc);
    log.push(Event {
        place: 0,
        step: 0,
        before: 0,
        value: 0,
        length: 0,
    })?;
    Ok(log)
}

// The last events of so many places, where the origin alone has one.
fn first_now(alloc: Global, places: usize) -> Result<Vec<Option<Last>>, OutOfMemory>
    requires some { 0 < places }
    ensures { IfOk result (λ now. now.items ≡ slice_set (replicate places None) 0 (Some origin)) }
{
    let mut now = vec![in alloc; None; places]?;
    now[0] = Some(Last {
        event: 0,
        value: 0,
        length: 0,
    });
    Ok(now)
}

// What the last events answer at the end.
fn answer(
    alloc: Global,
    axis: Axis,
    steps: &[Step],
    log: &[Event],
    now: &[Option<Last>],
    count: usize,
) -> Result<(Positions, Proof), OutOfMemory>
    requires places { length now.now ≡ 2 + count + count }
    requires ended { HasEnded (2 + count + count) steps.now log.now now.now }
    requires extent { ReachesExtent steps.now }
    ensures { IfOk result (λ found. HasAnswer axis count steps.now now.now found.0 found.1) }
{
    let at = positions(alloc, axis, now, count)?;
    let proof = bound(alloc, steps, log, now)?;
    Ok((at, proof))
}
