//! Tests on one strip and on two, and the rows of two that touch.
ghost use Rattle.std.specs.Prelude.{◌≡◌, ◌<◌, length, MatchBool};
ghost use Rattle.rt_view.specs.Job.{strips_of};
ghost use Rattle.rt_strips.specs.Placed.{placed};
ghost use Rattle.rt_strips.specs.Standing.{IsStrip, Touch};
ghost use Rattle.rt_htemplate.specs.Asked.{IsLeftKept, IsRightKept, IsShared};

use rt_rows::{Row, Var};
use rt_strips::{Strip, touching};
use rt_tech::{Tech, width_of};
use rt_view::Job;

// Whether there is a strip of that number.
pub(crate) fn is_strip(job: &Job, i: u32) -> bool
    ensures { MatchBool result (IsStrip (strips_of job.now) i) (¬ IsStrip (strips_of job.now) i) }
{
    (i as usize) < job.view.strips.list.as_slice().len()
}

// Whether one of the two strips stands on the other.
pub(crate) fn touch(job: &Job, i: u32, j: u32) -> bool
    ensures { MatchBool result (Touch (strips_of job.now) i j) (¬ Touch (strips_of job.now) i j) }
{
    if !is_strip(job, i) || !is_strip(job, j) {
        return false;
    }
    touching(&job.view.strips, i, j) || touching(&job.view.strips, j, i)
}

// The row by which the second strip begins where the first does or behind it, where it does so in the source.
pub(crate) fn left_kept(i: u32, j: u32, first: &Strip, second: &Strip) -> Option<Row>
    ensures { IsLeftKept i j (placed first.now) (placed second.now) result }
{
    if second.at.x1 < first.at.x1 {
        return None;
    }
    let by = if first.at.x1 < second.at.x1 { 1 } else { 0 };
    Some(Row::beyond(Var::L(i), Var::L(j), by))
}

// The row by which the second strip ends where the first does or behind it, where it does so in the source.
pub(crate) fn right_kept(i: u32, j: u32, first: &Strip, second: &Strip) -> Option<Row>
    ensures { IsRightKept i j (placed first.now) (placed second.now) result }
{
    if second.at.x2 < first.at.x2 {
        return None;
    }
    let by = if first.at.x2 < second.at.x2 { 1 } else { 0 };
    Some(Row::beyond(Var::R(i), Var::R(j), by))
}

// The row by which the two share the mask's width, where neither side of the second lies before that of the first.
pub(crate) fn shared(target: &Tech, i: u32, j: u32, first: &Strip, second: &Strip) -> Option<Row>
    ensures { IsShared target.now i j (placed first.now) (placed second.now) result }
{
    if second.at.x1 < first.at.x1 || second.at.x2 < first.at.x2 {
        return None;
    }
    Some(Row::beyond(Var::L(j), Var::R(i), width_of(target, first.mask)))
}
