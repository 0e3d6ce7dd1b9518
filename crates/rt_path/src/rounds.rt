//! Rounds until nothing is raised any more.
ghost use Rattle.std.specs.Prelude.{◌≡◌, ◌<◌, ◌^◌, length, IfOk};
ghost use Rattle.rt_path.specs.Raises.{AllFit};
ghost use Rattle.rt_path.specs.WaysBack.{AfterRounds, IsBeforeRound};

use crate::event::{Event, Last, Step};
use crate::raises::raise_all;
use crate::ways_back::circle;
use rt_base::{List, OutOfMemory};
use rt_rows::Share;
use std::alloc::Global;

/// Raises values round by round until each step is met, or gives the rows of a circle with a gain. Each round that raises something ends with
/// an event that comes by more raises than there were rounds, so there are fewer of them than places.
pub fn raise_until_met(
    alloc: Global,
    log: &mut Vec<Event>,
    now: &mut [Option<Last>],
    steps: &[Step],
) -> Result<Option<List<Share>>, OutOfMemory>
    requires few { length now.old < 2 ^ 34 }
    requires fit { AllFit (length now.old) steps.now }
    requires begins { IsBeforeRound (length now.old) 0 steps.now log.old.items now.old }
    ensures { IfOk result (λ shares. AfterRounds (length now.old) steps.now log.new.items now.new shares) }
{
    let mut round = 0;
    loop {
        let Some(last) = raise_all(log, now, steps, round)? else {
            return Ok(None);
        };
        let found = circle(alloc, steps, log, now.len(), last.event)?;
        if found.is_some() {
            return Ok(found);
        }
        round += 1;
    }
}
