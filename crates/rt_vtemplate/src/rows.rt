//! The rows of the template upwards.
ghost use Rattle.std.specs.Prelude.{◌≡◌, pos, map, All, MatchOption, IfOk};
ghost use Rattle.rt_rows.specs.declared.positions.TheConstants.{EXTENT_LIMIT};
ghost use Rattle.rt_rows.specs.declared.row.Var.TheVariants.{Height};
ghost use Rattle.rt_rows.specs.Rows.{at_least, at_most, beyond as beyond_by};
ghost use Rattle.rt_rows.specs.Places.{places};
ghost use Rattle.rt_strips.specs.Placed.{mask_of};
ghost use Rattle.rt_tech.specs.Tech.{IsMeasured};
ghost use Rattle.rt_template.specs.Between.{least_height as height_of};
ghost use Rattle.rt_view.specs.Job.{strips_of, IsJob};
ghost use Rattle.rt_template.specs.Vertical.{HaveColumns, RowUpwards};
ghost use Rattle.rt_vtemplate.specs.Listing.{ListsRows, row_of, with_row, IsKnown, HasNoRow, IsRowOf};

use crate::names::rows_v;
use rt_base::{List, OutOfMemory};
use rt_between::{apart_number, enclose_number, is_of_cut, less_width};
use rt_rows::{EXTENT_LIMIT, Name, Positions, Row, Term, Var};
use rt_tech::{space_of, width_of};
use rt_view::Job;
use std::alloc::Global;

/// The names of the template upwards at the columns, in its order, each with its row. The one error is a want of memory.
/// (This project's own.)
pub fn named_rows_v(
    alloc: Global,
    job: &Job,
    columns: &Positions,
) -> Result<List<(Name, Row)>, OutOfMemory>
    requires job { IsJob job.now }
    requires columns { HaveColumns job.now columns.now }
    ensures { IfOk result (ListsRows (RowUpwards job.now (places columns.now))) }
{
    let names = rows_v(alloc, job, columns)?;
    let rows = with_rows(alloc, job, names.as_slice())?;
    Ok(rows)
}

// The names, each with its row.
fn with_rows(alloc: Global, job: &Job, names: &[Name]) -> Result<List<(Name, Row)>, OutOfMemory>
    requires target { IsMeasured job.now.target }
    requires known { All (IsKnown job.now) names.now }
    ensures { IfOk result (λ rows. rows ≡ map (with_row job.now) names.now) }
{
    let mut rows = List::new(alloc);
    for name in names {
        match own_row(job, name) {
            Some(row) => rows.push((*name, row))?,
            None => unreachable!(),
        }
    }
    Ok(rows)
}

/// The row of a name in the template upwards, at whichever columns the template has the name: a name's row doesn't depend on the columns. None
/// where the name's kind is none of that template's. It takes no memory. (This project's own.)
pub fn row_v(job: &Job, name: &Name) -> Option<Row>
    requires target { IsMeasured job.now.target }
    ensures { MatchOption result (HasNoRow job.now name.now) (IsRowOf job.now name.now) }
{
    own_row(job, name)
}

/// The row of a name, if its kind is one of the template upwards.
pub(crate) fn own_row(job: &Job, name: &Name) -> Option<Row>
    requires target { IsMeasured job.now.target }
    ensures { result ≡ row_of job.now name.now }
{
    match *name {
        Name::Lo(i) => Some(from_zero(Var::B(i))),
        Name::Hi(i) => Some(beyond(Var::T(i), Var::Height, &0)),
        Name::Zero => Some(from_zero(Var::Height)),
        Name::Top => Some(within_limit()),
        Name::Tall(i) => Some(beyond(Var::B(i), Var::T(i), &least_height(job, i))),
        Name::Size(i) => Some(beyond(
            Var::T(i),
            Var::B(i),
            &less_width(&job.target, mask_at(job, i)),
        )),
        Name::On(i, j) => Some(beyond(Var::T(i), Var::B(j), &0)),
        Name::Under(i, j) => Some(beyond(Var::B(j), Var::T(i), &0)),
        Name::Gap(i, j) => Some(beyond(
            Var::T(i),
            Var::B(j),
            &space_of(&job.target, mask_at(job, i)),
        )),
        Name::Run(i, j) => Some(beyond(
            Var::B(i),
            Var::T(j),
            &width_of(&job.target, mask_at(job, i)),
        )),
        Name::Off(q, i, j) => Some(beyond(Var::T(i), Var::B(j), &apart_number(&job.target, q))),
        Name::Inb(q, i, h) => Some(beyond(Var::B(h), Var::B(i), &enclose_number(&job.target, q))),
        Name::Int(q, i, h) => Some(beyond(Var::T(i), Var::T(h), &enclose_number(&job.target, q))),
        _ => None,
    }
}

// How high a strip alone has to be: one of a cut as high as its size, and another one a row.
fn least_height(job: &Job, i: u32) -> i64
    ensures { result ≡ height_of job.now i }
{
    if is_of_cut(job, i) {
        width_of(&job.target, mask_at(job, i))
    } else {
        1
    }
}

// The mask of strip i; 0 where there is no such strip.
fn mask_at(job: &Job, i: u32) -> u32
    ensures { result ≡ mask_of (strips_of job.now) i }
{
    match job.view.strips.list.as_slice().get(i as usize) {
        Some(strip) => strip.mask,
        None => 0,
    }
}

// The variable is at least 0.
fn from_zero(var: Var) -> Row
    ensures { result ≡ at_least var (pos 0) }
{
    Row {
        terms: [Some(Term { var, times: 1 }), None, None],
        least: 0,
    }
}

// The height is within the limit.
fn within_limit() -> Row
    ensures { result ≡ at_most Height EXTENT_LIMIT }
{
    Row {
        terms: [
            Some(Term {
                var: Var::Height,
                times: -1,
            }),
            None,
            None,
        ],
        least: -EXTENT_LIMIT,
    }
}

// The second variable is beyond the first by a number at least.
fn beyond(first: Var, second: Var, by: &i64) -> Row
    ensures { result ≡ beyond_by first second by.now }
{
    Row {
        terms: [
            Some(Term {
                var: second,
                times: 1,
            }),
            Some(Term {
                var: first,
                times: -1,
            }),
            None,
        ],
        least: *by,
    }
}
