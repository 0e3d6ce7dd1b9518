//! The row of a name in the template across.
ghost use Rattle.std.specs.Prelude.{◌≡◌, ℕ, ◌<◌, MatchBool, MatchOption};
ghost use Rattle.rt_rows.specs.declared.row.Row.{Row};
ghost use Rattle.rt_rows.specs.declared.name.Name.TheVariants.{Lo, Hi, Wide, Ll, Rr, Share, Gap};
ghost use Rattle.rt_view.specs.Job.{IsJob, strips_of};
ghost use Rattle.rt_strips.specs.Table.{AreClimbsOf};
ghost use Rattle.rt_template.specs.Horizontal.{RowAcross, HasAcross};
ghost use Rattle.rt_htemplate.specs.Asked.{IsRowOf};

use crate::beside::is_kept_right_of;
use crate::masks::{inl, inr, off, size};
use crate::pair::{is_strip, left_kept, right_kept, shared, touch};
use rt_rows::{EXTENT_LIMIT, Name, Row, Var};
use rt_tech::{space_of, width_of};
use rt_view::Job;

/// The row of that name in the template across, where the template has it. It takes no memory. (This project's own.)
pub fn has_row_h(job: &Job, name: Name) -> Option<Row>
    requires job { IsJob job.now }
    ensures { MatchOption result ((row : Row) → RowAcross job.now name row → ⊥) (RowAcross job.now name) }
{
    match name {
        Name::Lo(i) => lo(job, i),
        Name::Hi(i) => hi(job, i),
        Name::Zero => Some(Row::at_least(Var::Width, 0)),
        Name::Top => Some(Row::at_most(Var::Width, EXTENT_LIMIT)),
        Name::Wide(i) => wide(job, i),
        Name::Size(i) => size(job, i),
        Name::Ll(i, j) => ll(job, i, j),
        Name::Rr(i, j) => rr(job, i, j),
        Name::Share(i, j) => share(job, i, j),
        Name::Gap(i, j) => gap(job, i, j),
        Name::Off(q, i, j) => off(job, q, i, j),
        Name::Inl(q, i, h) => inl(job, q, i, h),
        Name::Inr(q, i, h) => inr(job, q, i, h),
        _ => None,
    }
}

/// Whether the template across has a row of that name. It takes no memory. (This project's own.)
pub fn has_name_h(job: &Job, name: Name) -> bool
    requires job { IsJob job.now }
    ensures { MatchBool result (HasAcross job.now name) (¬ HasAcross job.now name) }
{
    match has_row_h(job, name) {
        Some(_row) => true,
        None => false,
    }
}

// The row on where a strip begins.
fn lo(job: &Job, i: u32) -> Option<Row>
    ensures { IsRowOf job.now (Lo i) result }
{
    if is_strip(job, i) {
        Some(Row::at_least(Var::L(i), 0))
    } else {
        None
    }
}

// The row on where a strip ends.
fn hi(job: &Job, i: u32) -> Option<Row>
    ensures { IsRowOf job.now (Hi i) result }
{
    if is_strip(job, i) {
        Some(Row::beyond(Var::R(i), Var::Width, 0))
    } else {
        None
    }
}

// The row on how wide a strip is.
fn wide(job: &Job, i: u32) -> Option<Row>
    ensures { IsRowOf job.now (Wide i) result }
{
    if is_strip(job, i) {
        let mask = job.view.strips.list.as_slice()[i as usize].mask;
        Some(Row::beyond(Var::L(i), Var::R(i), width_of(&job.target, mask)))
    } else {
        None
    }
}

// The row on where two strips that touch begin.
fn ll(job: &Job, i: u32, j: u32) -> Option<Row>
    ensures { IsRowOf job.now (Ll i j) result }
{
    if !touch(job, i, j) {
        return None;
    }
    let list = job.view.strips.list.as_slice();
    left_kept(i, j, &list[i as usize], &list[j as usize])
}

// The row on where two strips that touch end.
fn rr(job: &Job, i: u32, j: u32) -> Option<Row>
    ensures { IsRowOf job.now (Rr i j) result }
{
    if !touch(job, i, j) {
        return None;
    }
    let list = job.view.strips.list.as_slice();
    right_kept(i, j, &list[i as usize], &list[j as usize])
}

// The row on the columns that two strips that touch share.
fn share(job: &Job, i: u32, j: u32) -> Option<Row>
    ensures { IsRowOf job.now (Share i j) result }
{
    if !touch(job, i, j) {
        return None;
    }
    let list = job.view.strips.list.as_slice();
    shared(&job.target, i, j, &list[i as usize], &list[j as usize])
}

// The row on how far a strip stays beyond another.
fn gap(job: &Job, i: u32, j: u32) -> Option<Row>
    requires climbs { AreClimbsOf (strips_of job.now) job.now.climbs }
    ensures { IsRowOf job.now (Gap i j) result }
{
    if !is_kept_right_of(job, i, j) {
        return None;
    }
    let mask = job.view.strips.list.as_slice()[i as usize].mask;
    Some(Row::beyond(Var::R(i), Var::L(j), space_of(&job.target, mask)))
}
