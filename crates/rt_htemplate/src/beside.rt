//! Which strips keep their distance.
ghost use Rattle.std.specs.Prelude.{◌≡◌, ◌<◌, length, MatchBool};
ghost use Rattle.rt_view.specs.Job.{strips_of};
ghost use Rattle.rt_strips.specs.Placed.{placed};
ghost use Rattle.rt_strips.specs.Standing.{IsStrip};
ghost use Rattle.rt_strips.specs.Table.{AreClimbsOf};
ghost use Rattle.rt_template.specs.Horizontal.{AreOfOneDrawnMask, AreNear, IsKeptRightOf};
ghost use Rattle.rt_htemplate.specs.Asked.{HaveRow, LieBeside, AreFewRowsApart, IsNeitherClimbed};

use crate::pair::{is_strip, touch};
use rt_base::gap_y;
use rt_strips::Strip;
use rt_tech::{Tech, space_of};
use rt_view::Job;

// Whether strip j lies right of strip i, doesn't touch it, and is near it in rows.
pub(crate) fn is_kept_right_of(job: &Job, i: u32, j: u32) -> bool
    requires climbs { AreClimbsOf (strips_of job.now) job.now.climbs }
    ensures { MatchBool result (IsKeptRightOf job.now i j) (¬ IsKeptRightOf job.now i j) }
{
    if !are_of_one_drawn_mask(job, i, j) {
        return false;
    }
    if touch(job, i, j) {
        return false;
    }
    let list = job.view.strips.list.as_slice();
    lie_beside(&list[i as usize], &list[j as usize]) && are_near(job, i, j)
}

// Whether both are strips of one mask that is drawn.
fn are_of_one_drawn_mask(job: &Job, i: u32, j: u32) -> bool
    ensures { MatchBool result (AreOfOneDrawnMask job.now i j) (¬ AreOfOneDrawnMask job.now i j) }
{
    if !is_strip(job, i) || !is_strip(job, j) {
        return false;
    }
    let list = job.view.strips.list.as_slice();
    let mask = list[i as usize].mask;
    mask == list[j as usize].mask && mask < job.view.strips.masks
}

// Whether the second strip begins where the first ends, or behind it.
pub(crate) fn lie_beside(first: &Strip, second: &Strip) -> bool
    ensures { MatchBool result (LieBeside (placed first.now) (placed second.now)) (¬ LieBeside (placed first.now) (placed second.now)) }
{
    first.at.x2 <= second.at.x1
}

// Whether of two strips near in rows, they share a row, or neither is climbed from the other.
fn are_near(job: &Job, i: u32, j: u32) -> bool
    requires first { IsStrip (strips_of job.now) i }
    requires second { IsStrip (strips_of job.now) j }
    requires climbs { AreClimbsOf (strips_of job.now) job.now.climbs }
    ensures { MatchBool result (AreNear job.now i j) (¬ AreNear job.now i j) }
{
    let list = job.view.strips.list.as_slice();
    let first = &list[i as usize];
    let second = &list[j as usize];
    if have_row(first, second) {
        return true;
    }
    are_few_rows_apart(&job.source, first, second) && is_neither_climbed(job, i, j)
}

// Whether the two have a common row.
fn have_row(first: &Strip, second: &Strip) -> bool
    ensures { MatchBool result (HaveRow (placed first.now) (placed second.now)) (¬ HaveRow (placed first.now) (placed second.now)) }
{
    first.at.y1 < second.at.y2 && second.at.y1 < first.at.y2
}

// Whether fewer rows lie between the two than the space of the first one's mask.
fn are_few_rows_apart(source: &Tech, first: &Strip, second: &Strip) -> bool
    ensures { MatchBool result (AreFewRowsApart source.now (placed first.now) (placed second.now)) (¬ AreFewRowsApart source.now (placed first.now) (placed second.now)) }
{
    gap_y(&first.at, &second.at) < space_of(source, first.mask)
}

// Whether neither strip is climbed from the other.
fn is_neither_climbed(job: &Job, i: u32, j: u32) -> bool
    requires first { IsStrip (strips_of job.now) i }
    requires second { IsStrip (strips_of job.now) j }
    requires climbs { AreClimbsOf (strips_of job.now) job.now.climbs }
    ensures { MatchBool result (IsNeitherClimbed (strips_of job.now) i j) (¬ IsNeitherClimbed (strips_of job.now) i j) }
{
    !job.climbs.has(i, j) && !job.climbs.has(j, i)
}
