//! Where the sides of a polygon change what is inside, in the order of the rows.
ghost use Rattle.std.specs.Prelude.{◌≡◌, IfOk, OnOk, All};
ghost use Rattle.std.specs.List.Sorted.{IsPermutation};
ghost use Rattle.gds_slabs.specs.Sweep.{toggles_from, toggles, toggled, AreAscending, IsSmallToggle};

use rt_base::{OutOfMemory, Point};
use std::alloc::Global;
use std::collections::BTreeSet;

/// From this height on, the cells inside begin or end at the column: once more, or once less.
#[derive(Clone, Copy, PartialEq, Eq, PartialOrd, Ord, Drop)]
pub struct Toggle {
    /// The height.
    pub y: i32,
    /// The column.
    pub x: i32,
}

/// The toggles of the line over the points, by height: two for each side, at both its ends, at the column of the first.
/// Those of a side along a row are one toggle twice, and undo each other.
pub fn sorted_toggles(alloc: Global, points: &[Point]) -> Result<Vec<Toggle>, OutOfMemory>
    ensures permutation { IfOk result (λ list. IsPermutation (toggles points.now) list.items) }
    ensures ascending { IfOk result (λ list. AreAscending list.items) }
    ensures small { IfOk result (λ list. All IsSmallToggle list.items) }
{
    let mut list = toggles_of(alloc, points)?;
    list.sort()?;
    Ok(list)
}

fn toggles_of(alloc: Global, points: &[Point]) -> Result<Vec<Toggle>, OutOfMemory>
    ensures value { IfOk result (λ list. list.items ≡ toggles points.now) }
    ensures small { IfOk result (λ list. All IsSmallToggle list.items) }
{
    match points.split_first() {
        Some((first, rest)) => toggles_on(alloc, first, rest),
        None => Ok(Vec::new(alloc)),
    }
}

// The toggles of the line that goes on from the first point over the others.
fn toggles_on(alloc: Global, first: &Point, rest: &[Point]) -> Result<Vec<Toggle>, OutOfMemory>
    ensures value { IfOk result (λ list. list.items ≡ toggles_from first.now rest.now) }
    ensures small { IfOk result (λ list. All IsSmallToggle list.items) }
{
    let mut list = Vec::new(alloc);
    let mut last = *first;
    for point in rest {
        list.push(toggle_at(&last.y, &last.x))?;
        list.push(toggle_at(&point.y, &last.x))?;
        last = *point;
    }
    Ok(list)
}

fn toggle_at(y: &i32, x: &i32) -> Toggle
    ensures value { result ≡ record { y = y.now; x = x.now } }
    ensures small { IsSmallToggle result }
{
    Toggle { y: *y, x: *x }
}

/// Puts the column in, or takes it out where it is there.
pub fn flip(columns: &mut BTreeSet<i32>, x: &i32) -> Result<(), OutOfMemory>
    ensures { OnOk result (columns.new.keys ≡ toggled x.now columns.old.keys) }
{
    if !columns.remove(x) {
        columns.insert(*x)?;
    }
    Ok(())
}
