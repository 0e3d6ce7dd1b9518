//! The rows of cuts, of enclosures and of distances between masks.
ghost use Rattle.std.specs.Prelude.{◌≡◌, ◌<◌, length, MatchBool};
ghost use Rattle.rt_rows.specs.declared.name.Name.TheVariants.{Size, Off, Inl, Inr};
ghost use Rattle.rt_strips.specs.Placed.{placed};
ghost use Rattle.rt_tech.specs.Tech.{IsMeasured};
ghost use Rattle.rt_template.specs.Between.{IsOffRight};
ghost use Rattle.rt_htemplate.specs.Asked.{IsRowOf, LiesOff, StripsLieOff};

use crate::beside::lie_beside;
use rt_base::gap_y;
use rt_between::{
    apart_number, are_on_two_sides, enclose_number, is_cut_strip, is_host, less_width,
};
use rt_rows::{Row, Var};
use rt_strips::Strip;
use rt_view::Job;

// The row by which a strip of a cut is no wider than its size.
pub(crate) fn size(job: &Job, i: u32) -> Option<Row>
    requires target { IsMeasured job.now.target }
    ensures { IsRowOf job.now (Size i) result }
{
    if !is_cut_strip(job, i) {
        return None;
    }
    let mask = job.view.strips.list.as_slice()[i as usize].mask;
    Some(Row::beyond(Var::R(i), Var::L(i), less_width(&job.target, mask)))
}

// The row on how far a strip stays beyond another by a distance.
pub(crate) fn off(job: &Job, q: u32, i: u32, j: u32) -> Option<Row>
    ensures { IsRowOf job.now (Off q i j) result }
{
    if !is_off_right(job, q, i, j) {
        return None;
    }
    Some(Row::beyond(Var::R(i), Var::L(j), apart_number(&job.target, q)))
}

// The row on how far a host begins before a strip.
pub(crate) fn inl(job: &Job, q: u32, i: u32, h: u32) -> Option<Row>
    ensures { IsRowOf job.now (Inl q i h) result }
{
    if !is_host(job, q, i, h) {
        return None;
    }
    Some(Row::beyond(Var::L(h), Var::L(i), enclose_number(&job.target, q)))
}

// The row on how far a host ends behind a strip.
pub(crate) fn inr(job: &Job, q: u32, i: u32, h: u32) -> Option<Row>
    ensures { IsRowOf job.now (Inr q i h) result }
{
    if !is_host(job, q, i, h) {
        return None;
    }
    Some(Row::beyond(Var::R(i), Var::R(h), enclose_number(&job.target, q)))
}

// Whether strip j lies right of strip i on the other side of the distance, and near it in rows.
fn is_off_right(job: &Job, q: u32, i: u32, j: u32) -> bool
    ensures { MatchBool result (IsOffRight job.now q i j) (¬ IsOffRight job.now q i j) }
{
    if !are_on_two_sides(job, q, i, j) {
        return false;
    }
    strips_lie_off(job, &apart_number(&job.source, q), i, j)
}

// Whether strip j begins where strip i ends, or behind it, and fewer rows than the number lie between them.
fn strips_lie_off(job: &Job, number: &i64, i: u32, j: u32) -> bool
    requires first { i < length job.now.view.strips.list }
    requires second { j < length job.now.view.strips.list }
    ensures { MatchBool result (StripsLieOff job.now number.now i j) (¬ StripsLieOff job.now number.now i j) }
{
    let list = job.view.strips.list.as_slice();
    lies_off(&list[i as usize], &list[j as usize], number)
}

// Whether the second strip begins where the first ends, or behind it, and fewer rows than the number lie between them.
fn lies_off(first: &Strip, second: &Strip, number: &i64) -> bool
    ensures { MatchBool result (LiesOff (placed first.now) (placed second.now) number.now) (¬ LiesOff (placed first.now) (placed second.now) number.now) }
{
    lie_beside(first, second) && gap_y(&first.at, &second.at) < *number
}
