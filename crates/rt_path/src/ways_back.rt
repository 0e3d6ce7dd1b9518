//! The way back from an event of the log to the origin, row by row: it adds up to the event's value, or it closes a circle with a gain.
ghost use Rattle.std.specs.Prelude.{◌≡◌, ◌<◌, ◌≤◌, length, drop, IfOk};
ghost use Rattle.rt_path.specs.Raises.{AllFit, IsLog};
ghost use Rattle.rt_path.specs.WaysBack.{AfterWayBack, IsStepBack, IsBack, IsOnWayBack, AfterWalk, IsChain};

use crate::event::{Event, Step};
use rt_base::{List, OutOfMemory};
use rt_rows::{Of, Share};
use std::alloc::Global;

/// The rows of a circle with a gain, if the way back from the event comes to a place twice.
pub fn circle(
    alloc: Global,
    steps: &[Step],
    log: &[Event],
    places: usize,
    start: usize,
) -> Result<Option<List<Share>>, OutOfMemory>
    requires some { 0 < places }
    requires fit { AllFit places steps.now }
    requires log { IsLog steps.now log.now }
    requires later { 0 < start }
    requires there { start < length log.now }
    ensures { IfOk result (λ shares. AfterWayBack places steps.now log.now start shares) }
{
    let mut seen = vec![in alloc; None; places]?;
    let mut shares = List::new(alloc);
    match walk_back(steps, log, start, seen.as_mut_slice(), &mut shares)? {
        Some(from) => Ok(Some(behind(alloc, shares.as_slice(), from)?)),
        None => Ok(None),
    }
}

// Walks back until a place comes a second time, and gives how many shares lie before its first time.
fn walk_back(
    steps: &[Step],
    log: &[Event],
    start: usize,
    seen: &mut [Option<usize>],
    shares: &mut List<Share>,
) -> Result<Option<usize>, OutOfMemory>
    requires some { 0 < length seen.old }
    requires fit { AllFit (length seen.old) steps.now }
    requires log { IsLog steps.now log.now }
    requires later { 0 < start }
    requires begins { IsOnWayBack (length seen.old) steps.now log.now start start seen.old shares.old }
    ensures { IfOk result (λ found. AfterWalk (length seen.old) steps.now log.now start shares.new found) }
{
    let mut at = start;
    while at > 0 {
        at = step_back(steps, log, at, seen, shares)?;
        let found = seen[log[at].place];
        if found.is_some() {
            return Ok(found);
        }
    }
    Ok(None)
}

// Marks the place of the event and adds the share of its row. Gives the event from which it came.
fn step_back(
    steps: &[Step],
    log: &[Event],
    at: usize,
    seen: &mut [Option<usize>],
    shares: &mut List<Share>,
) -> Result<usize, OutOfMemory>
    requires fit { AllFit (length seen.old) steps.now }
    requires log { IsLog steps.now log.now }
    requires later { 0 < at }
    requires there { at < length log.now }
    ensures { IfOk result (λ before. IsStepBack steps.now log.now at seen.old shares.old seen.new shares.new before) }
{
    let event = &log[at];
    seen[event.place] = Some(shares.as_slice().len());
    shares.push(Share {
        times: 1,
        of: Of::Template(steps[event.step].name),
    })?;
    Ok(event.before)
}

// The shares behind the first ones.
fn behind(alloc: Global, shares: &[Share], from: usize) -> Result<List<Share>, OutOfMemory>
    requires within { from ≤ length shares.now }
    ensures { IfOk result (λ rest. rest ≡ drop from shares.now) }
{
    let mut rest = List::new(alloc);
    for share in &shares[from..] {
        rest.push(*share)?;
    }
    Ok(rest)
}

/// The rows along the way back from the event to the origin.
pub fn chain(
    alloc: Global,
    steps: &[Step],
    log: &[Event],
    start: usize,
) -> Result<List<Share>, OutOfMemory>
    requires log { IsLog steps.now log.now }
    requires there { start < length log.now }
    ensures { IfOk result (λ shares. IsChain steps.now log.now start shares) }
{
    let mut shares = List::new(alloc);
    let mut at = start;
    while at > 0 {
        let event = &log[at];
        shares.push(Share {
            times: 1,
            of: Of::Template(steps[event.step].name),
        })?;
        at = event.before;
    }
    Ok(shares)
}
