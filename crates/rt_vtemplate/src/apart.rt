//! Strips that keep a distance between masks above one another.
ghost use Rattle.std.specs.Prelude.{◌<◌, length, MatchBool};
ghost use Rattle.rt_rows.specs.Places.{places};
ghost use Rattle.rt_strips.specs.Placed.{placed};
ghost use Rattle.rt_template.specs.Vertical.{HaveColumns, IsOffAbove};
ghost use Rattle.rt_vtemplate.specs.Apart.{IsHigher, StripsAreHigher, AreWithin, StripsAreWithin, IsBehind};

use crate::nearby::columns_at;
use rt_between::{apart_number, are_on_two_sides};
use rt_near::Sides;
use rt_rows::Positions;
use rt_strips::Strip;
use rt_view::Job;

/// Whether strip j lies above strip i on the other side of a distance of the source's table, and near it in the columns of the drawing by the target's
/// number.
pub(crate) fn is_off_above(job: &Job, columns: &Positions, q: u32, i: u32, j: u32) -> bool
    requires columns { HaveColumns job.now columns.now }
    ensures { MatchBool result (IsOffAbove job.now (places columns.now) q i j) (¬ IsOffAbove job.now (places columns.now) q i j) }
{
    if !are_on_two_sides(job, q, i, j) {
        return false;
    }
    if !strips_are_higher(job, i, j) {
        return false;
    }
    strips_are_within(job, columns, &apart_number(&job.target, q), i, j)
}

// Whether strip j begins where strip i ends, or above it.
fn strips_are_higher(job: &Job, i: u32, j: u32) -> bool
    requires first { i < length job.now.view.strips.list }
    requires second { j < length job.now.view.strips.list }
    ensures { MatchBool result (StripsAreHigher job.now i j) (¬ StripsAreHigher job.now i j) }
{
    let list = job.view.strips.list.as_slice();
    is_higher(&list[i as usize], &list[j as usize])
}

// Whether the second strip begins where the first ends, or above it.
fn is_higher(lower: &Strip, upper: &Strip) -> bool
    ensures { MatchBool result (IsHigher (placed lower.now) (placed upper.now)) (¬ IsHigher (placed lower.now) (placed upper.now)) }
{
    lower.at.y2 <= upper.at.y1
}

// Whether fewer columns than the number lie between two strips in the drawing.
fn strips_are_within(job: &Job, columns: &Positions, number: &i64, i: u32, j: u32) -> bool
    requires columns { HaveColumns job.now columns.now }
    requires first { i < length job.now.view.strips.list }
    requires second { j < length job.now.view.strips.list }
    ensures { MatchBool result (StripsAreWithin job.now (places columns.now) number.now i j) (¬ StripsAreWithin job.now (places columns.now) number.now i j) }
{
    let first = columns_at(job, columns, i as usize);
    let second = columns_at(job, columns, j as usize);
    are_within(&first, &second, number)
}

// Whether fewer places than the number lie between two intervals.
fn are_within(a: &Sides, b: &Sides, number: &i64) -> bool
    ensures { MatchBool result (AreWithin a.now b.now number.now) (¬ AreWithin a.now b.now number.now) }
{
    *number > 0 && is_behind(a, b, number) && is_behind(b, a, number)
}

// Whether the second interval begins fewer places than the number behind the first.
fn is_behind(a: &Sides, b: &Sides, number: &i64) -> bool
    ensures { MatchBool result (IsBehind a.now b.now number.now) (¬ IsBehind a.now b.now number.now) }
{
    i128::from(b.low) - i128::from(a.high) < i128::from(*number)
}
