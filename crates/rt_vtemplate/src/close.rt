//! Strips that lie above others, near them in the columns of a drawing.
ghost use Rattle.std.specs.Prelude.{◌<ℤ◌, MatchBool};
ghost use Rattle.rt_rows.specs.Places.{places};
ghost use Rattle.rt_tech.specs.Tech.{IsLength};
ghost use Rattle.rt_view.specs.Job.{strips_of, IsJob};
ghost use Rattle.rt_strips.specs.Placed.{placed};
ghost use Rattle.rt_strips.specs.Standing.{IsStrip};
ghost use Rattle.rt_template.specs.Vertical.{HaveColumns, IsKeptAbove};
ghost use Rattle.rt_vtemplate.specs.Open.{IsLessApart, AreClose, AreCloseStrips, LiesAbove, IsAbove, AreBothStrips};

use crate::nearby::columns_at;
use crate::sight::is_seen;
use rt_near::Sides;
use rt_rows::Positions;
use rt_strips::{Strip, touching};
use rt_tech::space_of;
use rt_view::Job;

/// Whether strip j is kept above strip i: it lies above it, doesn't touch it, is near it in the columns of the drawing, and open to it.
pub(crate) fn is_kept_above(job: &Job, columns: &Positions, i: u32, j: u32) -> bool
    requires job { IsJob job.now }
    requires columns { HaveColumns job.now columns.now }
    ensures { MatchBool result (IsKeptAbove job.now (places columns.now) i j) (¬ IsKeptAbove job.now (places columns.now) i j) }
{
    if !are_both_strips(job, i, j) {
        return false;
    }
    if !is_above(job, i, j) {
        return false;
    }
    if !is_close(job, columns, i, j) {
        return false;
    }
    if !job.climbs.has(i, j) {
        return true;
    }
    if touching(&job.view.strips, i, j) {
        return false;
    }
    is_seen(job, columns, i, j)
}

/// Whether both are strips.
pub(crate) fn are_both_strips(job: &Job, i: u32, j: u32) -> bool
    ensures { MatchBool result (AreBothStrips (strips_of job.now) i j) (¬ AreBothStrips (strips_of job.now) i j) }
{
    is_strip(job, i) && is_strip(job, j)
}

/// Whether there is a strip of that number.
pub(crate) fn is_strip(job: &Job, i: u32) -> bool
    ensures { MatchBool result (IsStrip (strips_of job.now) i) (¬ IsStrip (strips_of job.now) i) }
{
    (i as usize) < job.view.strips.list.as_slice().len()
}

// Whether two strips are of one drawn mask, and the second lies above the first.
fn is_above(job: &Job, i: u32, j: u32) -> bool
    requires strips { AreBothStrips (strips_of job.now) i j }
    ensures { MatchBool result (IsAbove job.now i j) (¬ IsAbove job.now i j) }
{
    let strips = job.view.strips.list.as_slice();
    lies_above(
        job.view.strips.masks,
        &strips[i as usize],
        &strips[j as usize],
    )
}

// Whether two strips are of one of so many masks, and the second lies above the first.
#[tactic(auto, using(crate::proofs::Closeness::above))]
fn lies_above(masks: u32, lower: &Strip, upper: &Strip) -> bool
    ensures { MatchBool result (LiesAbove masks (placed lower.now) (placed upper.now)) (¬ LiesAbove masks (placed lower.now) (placed upper.now)) }
{
    if lower.mask != upper.mask || masks <= lower.mask {
        return false;
    }
    if upper.at.y1 < lower.at.y2 {
        return false;
    }
    true
}

// Whether two strips are near each other in the columns of the drawing, by the target's space of the first one's mask.
fn is_close(job: &Job, columns: &Positions, i: u32, j: u32) -> bool
    requires job { IsJob job.now }
    requires columns { HaveColumns job.now columns.now }
    requires strips { AreBothStrips (strips_of job.now) i j }
    ensures { MatchBool result (AreCloseStrips job.now (places columns.now) i j) (¬ AreCloseStrips job.now (places columns.now) i j) }
{
    let first = columns_at(job, columns, i as usize);
    let second = columns_at(job, columns, j as usize);
    are_close(&first, &second, &space_of(&job.target, first.group))
}

// Whether fewer places than the reach lie between two intervals.
fn are_close(a: &Sides, b: &Sides, reach: &i64) -> bool
    requires first { a.now.low <ℤ a.now.high }
    requires second { b.now.low <ℤ b.now.high }
    requires reach { IsLength reach.now }
    ensures { MatchBool result (AreClose a.now b.now reach.now) (¬ AreClose a.now b.now reach.now) }
{
    if a.high < b.low {
        is_less_apart(&a.high, &b.low, reach)
    } else if b.high < a.low {
        is_less_apart(&b.high, &a.low, reach)
    } else {
        true
    }
}

// Whether two numbers are less than the reach apart. Numbers that are farther apart than their type counts aren't.
fn is_less_apart(low: &i64, high: &i64, reach: &i64) -> bool
    requires order { low.now <ℤ high.now }
    requires reach { IsLength reach.now }
    ensures { MatchBool result (IsLessApart low.now high.now reach.now) (¬ IsLessApart low.now high.now reach.now) }
{
    match high.checked_sub(*low) {
        Some(apart) => apart < *reach,
        None => false,
    }
}
