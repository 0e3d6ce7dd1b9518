//! Rounds of raises: each step that isn't met raises the value at its head.
ghost use Rattle.std.specs.Prelude.{◌≡◌, ◌+◌, ◌<◌, ◌^◌, length, IfOk, MatchOption};
ghost use Rattle.rt_path.specs.Raises.{IsFit, AllFit, IsGoing, AllSettled, AllShort, IsQuiet, IsWanted, AfterStep, AfterRaises};

use crate::event::{Event, Last, Step};
use rt_base::OutOfMemory;

/// One round over the steps, in their order. Gives the last event, if something was raised. The round stops early at an event whose way back
/// comes to a place twice.
pub fn raise_all(
    log: &mut Vec<Event>,
    now: &mut [Option<Last>],
    steps: &[Step],
    round: usize,
) -> Result<Option<Last>, OutOfMemory>
    requires few { length now.old < 2 ^ 34 }
    requires fit { AllFit (length now.old) steps.now }
    requires going { IsGoing (length now.old) steps.now log.old.items now.old }
    requires settled { AllSettled round steps.now now.old }
    ensures { IfOk result (λ last. AfterRaises (length now.old) round steps.now log.new.items now.new last) }
{
    let mut last = None;
    for (number, step) in steps.iter().enumerate() {
        if let Some(new) = raise(log, now, number, step)? {
            last = Some(new);
            if now.len() <= new.length || step.head == 0 {
                return Ok(last);
            }
        }
    }
    Ok(last)
}

// Raises the value at the step's head to what the step asks for, if the step isn't met.
fn raise(
    log: &mut Vec<Event>,
    now: &mut [Option<Last>],
    number: usize,
    step: &Step,
) -> Result<Option<Last>, OutOfMemory>
    requires few { length now.old < 2 ^ 34 }
    requires fit { IsFit (length now.old) step.now }
    requires short { AllShort (length now.old) now.old }
    ensures { IfOk result (λ last. AfterStep number step.now log.old.items now.old log.new.items now.new last) }
{
    let Some(from) = wanted(now, step) else {
        return Ok(None);
    };
    let last = Last {
        event: log.len(),
        value: from.value + step.by,
        length: from.length + 1,
    };
    log.push(Event {
        place: step.head,
        step: number,
        before: from.event,
        value: last.value,
        length: last.length,
    })?;
    now[step.head] = Some(last);
    Ok(Some(last))
}

// The last event of the step's tail, if the step isn't met.
fn wanted(now: &[Option<Last>], step: &Step) -> Option<Last>
    requires few { length now.now < 2 ^ 34 }
    requires fit { IsFit (length now.now) step.now }
    requires short { AllShort (length now.now) now.now }
    ensures { MatchOption result (IsQuiet now.now step.now) (λ from. IsWanted now.now step.now from) }
{
    let from = now[step.tail]?;
    if let Some(to) = now[step.head] {
        if from.value + step.by <= to.value {
            return None;
        }
    }
    Some(from)
}
