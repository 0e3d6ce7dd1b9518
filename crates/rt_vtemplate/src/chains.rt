//! Whole chains of strips in the columns of a drawing.
ghost use Rattle.std.specs.Prelude.{◌≡◌, ◌<◌, pos, ◌+ℤ◌, ◌-ℤ◌, ◌<ℤ◌, length, MatchBool};
ghost use Rattle.rt_rows.specs.Places.{places};
ghost use Rattle.rt_view.specs.Job.{strips_of, IsJob};
ghost use Rattle.rt_strips.specs.Placed.{mask_of};
ghost use Rattle.rt_template.specs.Vertical.{HaveColumns, CoversBoth, IsChain, IsWholeChain};
ghost use Rattle.rt_vtemplate.specs.Whole.{IsLowest, IsHighest, IsWholeAt, IsWholeBeside, StandsThere, IsSpan};

use crate::nearby::columns_at;
use crate::sight::covers;
use rt_near::Sides;
use rt_rows::Positions;
use rt_strips::touching;
use rt_view::Job;

// One column of a drawing, or two: the first and the last.
#[derive(Clone, Copy, Drop)]
struct Span {
    x: i64,
    u: i64,
}

/// Whether a whole chain of a drawn mask leads from strip i to strip j at one column of the drawing, or at two adjacent ones. Where the strips that
/// cover the columns stay the same, so do the chains: it tries the columns at which a strip begins or ends.
pub(crate) fn is_whole_chain(job: &Job, columns: &Positions, i: u32, j: u32) -> bool
    requires job { IsJob job.now }
    requires columns { HaveColumns job.now columns.now }
    requires first { i < length job.now.view.strips.list }
    requires second { j < length job.now.view.strips.list }
    requires is_drawn { mask_of (strips_of job.now) i < job.now.view.strips.masks }
    ensures { MatchBool result (IsWholeChain job.now (places columns.now) i j) (¬ IsWholeChain job.now (places columns.now) i j) }
{
    for k in 0..job.view.strips.list.as_slice().len() as u32 {
        if is_whole_beside(job, columns, k, i, j) {
            return true;
        }
    }
    false
}

// Whether a whole chain leads from strip i to strip j at columns that begin where strip k does, or of which the last is the one behind strip k.
fn is_whole_beside(job: &Job, columns: &Positions, k: u32, i: u32, j: u32) -> bool
    requires job { IsJob job.now }
    requires columns { HaveColumns job.now columns.now }
    requires third { k < length job.now.view.strips.list }
    requires first { i < length job.now.view.strips.list }
    requires second { j < length job.now.view.strips.list }
    ensures { MatchBool result (IsWholeBeside job.now (places columns.now) k i j) (¬ IsWholeBeside job.now (places columns.now) k i j) }
{
    let sides = columns_at(job, columns, k as usize);
    if is_whole_at(job, columns, &first_column(&sides), i, j) {
        return true;
    }
    if is_whole_at(job, columns, &first_two(&sides), i, j) {
        return true;
    }
    if is_whole_at(job, columns, &column_behind(&sides), i, j) {
        return true;
    }
    is_whole_at(job, columns, &last_two(&sides), i, j)
}

// The column at which the interval begins.
fn first_column(sides: &Sides) -> Span
    ensures { IsSpan sides.now.low sides.now.low result }
{
    Span {
        x: sides.low,
        u: sides.low,
    }
}

// The column at which the interval begins, with the next one.
fn first_two(sides: &Sides) -> Span
    requires { sides.now.low <ℤ sides.now.high }
    ensures { IsSpan sides.now.low (sides.now.low +ℤ pos 1) result }
{
    prove!(sides.low < sides.high);
    Span {
        x: sides.low,
        u: sides.low + 1,
    }
}

// The column behind the interval.
fn column_behind(sides: &Sides) -> Span
    ensures { IsSpan sides.now.high sides.now.high result }
{
    Span {
        x: sides.high,
        u: sides.high,
    }
}

// The column behind the interval, with the one before.
fn last_two(sides: &Sides) -> Span
    requires { sides.now.low <ℤ sides.now.high }
    ensures { IsSpan (sides.now.high -ℤ pos 1) sides.now.high result }
{
    prove!(sides.low < sides.high);
    Span {
        x: sides.high - 1,
        u: sides.high,
    }
}

// Whether a whole chain leads from strip i to strip j at the columns.
fn is_whole_at(job: &Job, columns: &Positions, span: &Span, i: u32, j: u32) -> bool
    requires job { IsJob job.now }
    requires columns { HaveColumns job.now columns.now }
    requires first { i < length job.now.view.strips.list }
    requires second { j < length job.now.view.strips.list }
    ensures { MatchBool result
        (IsWholeAt job.now (places columns.now) span.now.x span.now.u i j)
        (¬ IsWholeAt job.now (places columns.now) span.now.x span.now.u i j) }
{
    if !is_chain(job, columns, span, i, j) {
        return false;
    }
    if !is_lowest(job, columns, span, i) {
        return false;
    }
    is_highest(job, columns, span, j)
}

// Whether strip i stands on no strip that covers the columns. Strips that it stands on have smaller numbers.
fn is_lowest(job: &Job, columns: &Positions, span: &Span, i: u32) -> bool
    requires job { IsJob job.now }
    requires columns { HaveColumns job.now columns.now }
    requires first { i < length job.now.view.strips.list }
    ensures { MatchBool result
        (IsLowest job.now (places columns.now) span.now.x span.now.u i)
        (¬ IsLowest job.now (places columns.now) span.now.x span.now.u i) }
{
    for k in 0..i {
        if stands_there(job, columns, span, k, i, k) {
            return false;
        }
    }
    true
}

// Whether no strip that covers the columns stands on strip j. Strips that stand on it have greater numbers.
fn is_highest(job: &Job, columns: &Positions, span: &Span, j: u32) -> bool
    requires job { IsJob job.now }
    requires columns { HaveColumns job.now columns.now }
    requires second { j < length job.now.view.strips.list }
    ensures { MatchBool result
        (IsHighest job.now (places columns.now) span.now.x span.now.u j)
        (¬ IsHighest job.now (places columns.now) span.now.x span.now.u j) }
{
    for k in j..job.view.strips.list.as_slice().len() as u32 {
        if stands_there(job, columns, span, j, k, k) {
            return false;
        }
    }
    true
}

// Whether a chain leads from strip i to strip j over the columns. Its strips have rising numbers.
fn is_chain(job: &Job, columns: &Positions, span: &Span, i: u32, j: u32) -> bool
    requires job { IsJob job.now }
    requires columns { HaveColumns job.now columns.now }
    requires first { i < length job.now.view.strips.list }
    requires second { j < length job.now.view.strips.list }
    ensures { MatchBool result
        (IsChain job.now (places columns.now) span.now.x span.now.u i j)
        (¬ IsChain job.now (places columns.now) span.now.x span.now.u i j) }
{
    if !covers_both(job, columns, span, j) {
        return false;
    }
    if i == j {
        return true;
    }
    for k in i..j {
        if stands_there(job, columns, span, k, j, k) {
            if is_chain(job, columns, span, i, k) {
                return true;
            }
        }
    }
    false
}

// Whether the upper one of two strips stands on the lower one, and a strip covers the columns.
fn stands_there(job: &Job, columns: &Positions, span: &Span, below: u32, above: u32, k: u32) -> bool
    requires columns { HaveColumns job.now columns.now }
    requires lower { below < length job.now.view.strips.list }
    requires upper { above < length job.now.view.strips.list }
    requires third { k < length job.now.view.strips.list }
    ensures { MatchBool result
        (StandsThere job.now (places columns.now) span.now.x span.now.u below above k)
        (¬ StandsThere job.now (places columns.now) span.now.x span.now.u below above k) }
{
    covers_both(job, columns, span, k) && touching(&job.view.strips, below, above)
}

// Whether strip k covers the columns.
fn covers_both(job: &Job, columns: &Positions, span: &Span, k: u32) -> bool
    requires columns { HaveColumns job.now columns.now }
    requires third { k < length job.now.view.strips.list }
    ensures { MatchBool result
        (CoversBoth job.now (places columns.now) span.now.x span.now.u k)
        (¬ CoversBoth job.now (places columns.now) span.now.x span.now.u k) }
{
    covers(job, columns, &span.x, k) && covers(job, columns, &span.u, k)
}
