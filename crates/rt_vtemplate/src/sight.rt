//! Which strips are seen from which in the columns of a drawing.
ghost use Rattle.std.specs.Prelude.{◌≡◌, ◌<◌, length, MatchBool, MatchOption};
ghost use Rattle.std.specs.Int.{int_max, int_min};
ghost use Rattle.rt_rows.specs.declared.row.Var.TheVariants.{L, R};
ghost use Rattle.rt_rows.specs.Places.{places};
ghost use Rattle.rt_view.specs.Job.{strips_of, IsJob};
ghost use Rattle.rt_strips.specs.Placed.{placed};
ghost use Rattle.rt_strips.specs.Standing.{AreOfOneMask};
ghost use Rattle.rt_template.specs.Vertical.{HaveColumns, CoversColumn, LiesBetween, IsSeenFrom};
ghost use Rattle.rt_vtemplate.specs.Open.{LiesInRows, AreInRows, HasNoneBetween};

use rt_rows::Positions;
use rt_strips::Strip;
use rt_view::Job;

/// Whether strip j, above strip i of its mask, is seen from it in the columns of the drawing. It goes from the first column that both have to the
/// right, past each strip that it meets between them.
pub(crate) fn is_seen(job: &Job, columns: &Positions, i: u32, j: u32) -> bool
    requires job { IsJob job.now }
    requires columns { HaveColumns job.now columns.now }
    requires of_one_mask { AreOfOneMask (strips_of job.now) i j }
    ensures { MatchBool result (IsSeenFrom job.now (places columns.now) i j) (¬ IsSeenFrom job.now (places columns.now) i j) }
{
    let end = last_of_both(columns, i, j);
    let mut x = first_of_both(columns, i, j);
    while x < end {
        match one_between(job, columns, i, j, &x) {
            Some(k) => x = right_side(columns, k),
            None => return true,
        }
    }
    false
}

// The first column that both strips can cover in the drawing.
fn first_of_both(columns: &Positions, i: u32, j: u32) -> i64
    requires first { i < length columns.now.l }
    requires second { j < length columns.now.l }
    ensures { result ≡ int_max (places columns.now (L i)) (places columns.now (L j)) }
{
    let first = left_side(columns, i);
    let second = left_side(columns, j);
    if first < second { second } else { first }
}

// The column behind the last one that both strips can cover in the drawing.
fn last_of_both(columns: &Positions, i: u32, j: u32) -> i64
    requires first { i < length columns.now.r }
    requires second { j < length columns.now.r }
    ensures { result ≡ int_min (places columns.now (R i)) (places columns.now (R j)) }
{
    let first = right_side(columns, i);
    let second = right_side(columns, j);
    if first < second { first } else { second }
}

// A strip that covers the column in the drawing and lies between the rows of strips i and j, if there is one. Their numbers are between.
fn one_between(job: &Job, columns: &Positions, i: u32, j: u32, x: &i64) -> Option<u32>
    requires job { IsJob job.now }
    requires columns { HaveColumns job.now columns.now }
    requires of_one_mask { AreOfOneMask (strips_of job.now) i j }
    ensures { MatchOption result (HasNoneBetween job.now (places columns.now) i j x.now) (LiesBetween job.now (places columns.now) i j x.now) }
{
    for k in i..j {
        if lies_between(job, columns, i, j, x, k) {
            return Some(k);
        }
    }
    None
}

// Whether strip k covers the column in the drawing and lies between the rows of strips i and j.
fn lies_between(job: &Job, columns: &Positions, i: u32, j: u32, x: &i64, k: u32) -> bool
    requires columns { HaveColumns job.now columns.now }
    requires of_one_mask { AreOfOneMask (strips_of job.now) i j }
    requires third { k < length job.now.view.strips.list }
    ensures { MatchBool result (LiesBetween job.now (places columns.now) i j x.now k) (¬ LiesBetween job.now (places columns.now) i j x.now k) }
{
    if covers(job, columns, x, k) {
        is_in_rows(job, i, j, k)
    } else {
        false
    }
}

/// Whether strip k covers the column in the drawing.
pub(crate) fn covers(job: &Job, columns: &Positions, x: &i64, k: u32) -> bool
    requires columns { HaveColumns job.now columns.now }
    requires third { k < length job.now.view.strips.list }
    ensures { MatchBool result (CoversColumn job.now (places columns.now) k x.now) (¬ CoversColumn job.now (places columns.now) k x.now) }
{
    left_side(columns, k) <= *x && *x < right_side(columns, k)
}

// Where strip i begins in the columns of the drawing.
fn left_side(columns: &Positions, i: u32) -> i64
    requires there { i < length columns.now.l }
    ensures { result ≡ places columns.now (L i) }
{
    columns.l.as_slice()[i as usize]
}

// Where strip i ends in the columns of the drawing.
fn right_side(columns: &Positions, i: u32) -> i64
    requires there { i < length columns.now.r }
    ensures { result ≡ places columns.now (R i) }
{
    columns.r.as_slice()[i as usize]
}

// Whether strip k is of strip i's mask and lies between the rows of strips i and j.
fn is_in_rows(job: &Job, i: u32, j: u32, k: u32) -> bool
    requires of_one_mask { AreOfOneMask (strips_of job.now) i j }
    requires third { k < length job.now.view.strips.list }
    ensures { MatchBool result (AreInRows (strips_of job.now) i j k) (¬ AreInRows (strips_of job.now) i j k) }
{
    let strips = job.view.strips.list.as_slice();
    lies_in_rows(
        &strips[i as usize],
        &strips[j as usize],
        &strips[k as usize],
    )
}

// Whether the third strip is of the first one's mask and lies between the rows of the other two.
#[tactic(auto, using(crate::proofs::Blocked::in_rows))]
fn lies_in_rows(first: &Strip, second: &Strip, third: &Strip) -> bool
    ensures { MatchBool result (LiesInRows (placed first.now) (placed second.now) (placed third.now)) (¬ LiesInRows (placed first.now) (placed second.now) (placed third.now)) }
{
    if first.mask != third.mask || third.at.y1 < first.at.y2 {
        return false;
    }
    if second.at.y1 < third.at.y2 {
        return false;
    }
    true
}
