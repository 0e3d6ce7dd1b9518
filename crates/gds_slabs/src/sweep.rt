//! The rectangles of a polygon, row by row.
ghost use Rattle.std.specs.Prelude.{◌≡◌, ◌-◌, ◌^◌, ◌++◌, ◌<ℤ◌, [], length, map, min, IfOk, OnOk};
ghost use Rattle.rt_base.specs.Plane.{area};
ghost use Rattle.gds_slabs.specs.Polygon.{IsClosed, IsSlanted};
ghost use Rattle.gds_slabs.specs.Slabs.{IsSlabs, IsSlabCount};
ghost use Rattle.gds_slabs.specs.Steps.{AreInReach};
ghost use Rattle.gds_slabs.specs.Sweep.{slab, step, swept};

use crate::around::goes_around;
use crate::toggles::{Toggle, flip, sorted_toggles};
use rt_base::{List, OutOfMemory, Point, Rect};
use std::alloc::Global;
use std::collections::BTreeSet;

/// The rectangles that a closed polygon without slanted sides becomes: between each two adjacent heights of its points,
/// one for each run of the cells inside by the even-odd rule along rows, by rows and then by columns.
/// Coordinates are in database units, and no rectangle lies farther from the axes than 2^32. OutOfMemory where
/// there is no memory for the toggles or the rectangles.
/// (This project's own; what is inside is that of GDSII Release 6's BOUNDARY.)
pub fn slabs(alloc: Global, points: &[Point]) -> Result<List<Rect>, OutOfMemory>
    requires closed { IsClosed points.now }
    requires straight { ¬ IsSlanted points.now }
    ensures slabs { IfOk result (λ list. IsSlabs points.now (map area list)) }
    ensures near { IfOk result AreInReach }
{
    let toggles = sorted_toggles(alloc, points)?;
    rects_of(alloc, &toggles)
}

// The rectangles of the toggles, which rise.
fn rects_of(alloc: Global, toggles: &[Toggle]) -> Result<List<Rect>, OutOfMemory>
    ensures { IfOk result (λ list. map area list ≡ swept i32.MIN [] toggles.now) }
{
    let mut rects = List::new(alloc);
    let mut columns = BTreeSet::new(alloc);
    let mut last = Toggle { y: i32::MIN, x: 0 };
    for toggle in toggles {
        push_rows(&mut rects, &columns, &last, toggle)?;
        flip(&mut columns, &toggle.x)?;
        last = *toggle;
    }
    Ok(rects)
}

// Appends the rectangles from the height of the last toggle up to that of the next, if there are rows between.
fn push_rows(
    rects: &mut List<Rect>,
    columns: &BTreeSet<i32>,
    last: &Toggle,
    next: &Toggle,
) -> Result<(), OutOfMemory>
    ensures { OnOk result (map area rects.new ≡ map area rects.old ++ step last.now.y next.now.y columns.now.keys) }
{
    if last.y < next.y {
        push_slab(rects, columns, last, next)
    } else {
        Ok(())
    }
}

// Appends the rectangles over each two columns.
fn push_slab(
    rects: &mut List<Rect>,
    columns: &BTreeSet<i32>,
    last: &Toggle,
    next: &Toggle,
) -> Result<(), OutOfMemory>
    requires { last.now.y <ℤ next.now.y }
    ensures { OnOk result (map area rects.new ≡ map area rects.old ++ slab last.now.y next.now.y columns.now.keys) }
{
    let mut left = None;
    for column in columns.iter() {
        match left {
            None => left = Some(*column),
            Some(first) => {
                rects.push(slab_rect(last, next, &first, column))?;
                left = None;
            }
        }
    }
    Ok(())
}

// The rectangle between the heights of two toggles and two columns.
fn slab_rect(last: &Toggle, next: &Toggle, left: &i32, right: &i32) -> Rect
    requires upwards { last.now.y <ℤ next.now.y }
    requires across { left.now <ℤ right.now }
    ensures { area result ≡ record { left = left.now; right = right.now; bottom = last.now.y; top = next.now.y } }
{
    Rect {
        x1: i64::from(*left),
        y1: i64::from(last.y),
        x2: i64::from(*right),
        y2: i64::from(next.y),
    }
}

/// How many rectangles `slabs` gives, without making them: it takes n log n steps for n points, also where there are about
/// n * n rectangles. OutOfMemory where there is no memory for the toggles. (This project's own.)
pub fn slab_count(alloc: Global, points: &[Point]) -> Result<u64, OutOfMemory>
    requires closed { IsClosed points.now }
    requires straight { ¬ IsSlanted points.now }
    ensures { IfOk result (IsSlabCount points.now) }
{
    if goes_around(points) {
        return Ok(1);
    }
    let toggles = sorted_toggles(alloc, points)?;
    count_of(alloc, &toggles)
}

// How many rectangles the toggles give, which rise. Those of points of 32 bits are fewer than 2^64.
#[tactic(auto, using(crate::proofs::Listing::length_swept))]
fn count_of(alloc: Global, toggles: &[Toggle]) -> Result<u64, OutOfMemory>
    ensures { IfOk result (λ count. count ≡ min (length (swept i32.MIN [] toggles.now)) (2 ^ 64 - 1)) }
{
    let mut count = 0u64;
    let mut columns = BTreeSet::new(alloc);
    let mut last = Toggle { y: i32::MIN, x: 0 };
    for toggle in toggles {
        count = count.saturating_add(rows_count(&columns, &last, toggle));
        flip(&mut columns, &toggle.x)?;
        last = *toggle;
    }
    Ok(count)
}

// How many rectangles there are from the height of the last toggle up to that of the next.
#[tactic(auto, using(crate::proofs::Listing::length_step))]
fn rows_count(columns: &BTreeSet<i32>, last: &Toggle, next: &Toggle) -> u64
    ensures { result ≡ length (step last.now.y next.now.y columns.now.keys) }
{
    if last.y < next.y {
        columns.len() as u64 / 2
    } else {
        0
    }
}
