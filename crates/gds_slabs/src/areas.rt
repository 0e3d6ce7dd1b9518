//! The rectangles of a path: those of its segments, and the squares at its points.
ghost use Rattle.std.specs.Prelude.{◌≡◌, ◌≢◌, ◌↔◌, IsTrue, ◌^◌, ◌≤◌, ℤ, pos, ◌++◌, [], ◌∷◌, true, length, map, IfOk, OnOk};
ghost use Rattle.std.specs.List.{filter};
ghost use Rattle.std.specs.Int.{int_min, int_max};
ghost use Rattle.rt_base.specs.Plane.{area, IsCoordinate};
ghost use Rattle.gds_slabs.specs.Polygon.{sides_from, sides};
ghost use Rattle.gds_slabs.specs.Steps.{IsInReach, IsWithin, AreInReach};
ghost use Rattle.gds_slabs.specs.Path.{IsPathWidth, half_of, square, row_segment, column_segment, segment, has_length, inner, squared_ends, path_areas};

use crate::path::PathEnd;
use crate::pen::Pen;
use rt_base::{List, OutOfMemory, Point, Rect};
use std::alloc::Global;

/// Whether a path can have the width: it's even and not 0. (This project's own: half of it is on the grid.)
pub fn is_path_width(width: i32) -> bool
    ensures { IsTrue result ↔ IsPathWidth width }
{
    let magnitude = width.unsigned_abs();
    magnitude != 0 && magnitude % 2 == 0
}

/// The rectangles of a path: for each segment in order whose ends differ that of its length and the path's width, then the
/// square of the width at each inner point, then, for square ends, at the first and the last point. Segments are along rows or
/// columns; the width is taken by its magnitude. Lengths are in database units, and no rectangle lies farther from the axes
/// than 2^32. OutOfMemory where there is no memory for the rectangles. (This project's own, after GDSII Release 6's PATH.)
#[tactic(auto, using(crate::proofs::Nearness::near_none))]
pub fn path_rects(
    alloc: Global,
    points: &[Point],
    width: i32,
    end: PathEnd,
) -> Result<List<Rect>, OutOfMemory>
    requires points { 2 ≤ length points.now }
    requires width { IsPathWidth width }
    ensures areas { IfOk result (λ list. map area list ≡ path_areas (half_of width) end points.now) }
    ensures near { IfOk result AreInReach }
{
    let pen = Pen::new(width);
    let mut rects = List::new(alloc);
    push_segments(&mut rects, &pen, &points[0], &points[1..])?;
    push_squares(&mut rects, &pen, &points[1..points.len() - 1])?;
    push_ends(&mut rects, &pen, points, end)?;
    Ok(rects)
}

// Appends the rectangles of the segments of the line that goes on from the first point over the others.
fn push_segments(
    rects: &mut List<Rect>,
    pen: &Pen,
    first: &Point,
    rest: &[Point],
) -> Result<(), OutOfMemory>
    ensures areas { OnOk result (map area rects.new ≡ map area rects.old ++ map (segment pen.now.half) (filter has_length (sides_from first.now rest.now))) }
    ensures near { OnOk result (AreInReach rects.old → AreInReach rects.new) }
{
    let mut last = *first;
    for point in rest {
        push_segment(rects, pen, &last, point)?;
        last = *point;
    }
    Ok(())
}

// Appends the rectangle of the segment, if it has a length.
fn push_segment(rects: &mut List<Rect>, pen: &Pen, p: &Point, q: &Point) -> Result<(), OutOfMemory>
    ensures areas { OnOk result (map area rects.new ≡ map area rects.old ++ map (segment pen.now.half) (filter has_length ((p.now, q.now) ∷ []))) }
    ensures near { OnOk result (AreInReach rects.old → AreInReach rects.new) }
{
    if p.y != q.y {
        rects.push(along_column(pen, p, q))
    } else if p.x != q.x {
        rects.push(along_row(pen, p, q))
    } else {
        Ok(())
    }
}

#[tactic(auto, using(crate::proofs::Paths::min_below_max))]
fn along_row(pen: &Pen, p: &Point, q: &Point) -> Rect
    requires { p.now.x ≢ q.now.x }
    ensures area { area result ≡ row_segment pen.now.half (p.now, q.now) }
    ensures near { IsWithin (pos (2 ^ 32)) (area result) }
{
    Rect {
        x1: lesser(&p.x, &q.x),
        y1: pen.before(&p.y),
        x2: greater(&p.x, &q.x),
        y2: pen.after(&p.y),
    }
}

#[tactic(auto, using(crate::proofs::Paths::min_below_max))]
fn along_column(pen: &Pen, p: &Point, q: &Point) -> Rect
    requires { p.now.y ≢ q.now.y }
    ensures area { area result ≡ column_segment pen.now.half (p.now, q.now) }
    ensures near { IsWithin (pos (2 ^ 32)) (area result) }
{
    Rect {
        x1: pen.before(&p.x),
        y1: lesser(&p.y, &q.y),
        x2: pen.after(&p.x),
        y2: greater(&p.y, &q.y),
    }
}

pub(crate) fn lesser(a: &i32, b: &i32) -> i64
    ensures value { result ≡ int_min a.now b.now }
    ensures small { IsCoordinate result }
    ensures near { IsInReach result }
{
    i64::from(if *b < *a { *b } else { *a })
}

pub(crate) fn greater(a: &i32, b: &i32) -> i64
    ensures value { result ≡ int_max a.now b.now }
    ensures small { IsCoordinate result }
    ensures near { IsInReach result }
{
    i64::from(if *b < *a { *a } else { *b })
}

// Appends the squares at the points.
fn push_squares(rects: &mut List<Rect>, pen: &Pen, points: &[Point]) -> Result<(), OutOfMemory>
    ensures areas { OnOk result (map area rects.new ≡ map area rects.old ++ map (square pen.now.half) points.now) }
    ensures near { OnOk result (AreInReach rects.old → AreInReach rects.new) }
{
    for point in points {
        rects.push(square_rect(pen, point))?;
    }
    Ok(())
}

// Appends the squares at the ends.
#[tactic(auto, using(crate::proofs::Paths::ends_pushed, crate::proofs::Nearness::near_pushed))]
fn push_ends(
    rects: &mut List<Rect>,
    pen: &Pen,
    points: &[Point],
    end: PathEnd,
) -> Result<(), OutOfMemory>
    requires { 2 ≤ length points.now }
    ensures areas { OnOk result (map area rects.new ≡ map area rects.old ++ map (square pen.now.half) (squared_ends end points.now)) }
    ensures near { OnOk result (AreInReach rects.old → AreInReach rects.new) }
{
    match end {
        PathEnd::Flush => Ok(()),
        PathEnd::Square => {
            rects.push(square_rect(pen, &points[0]))?;
            rects.push(square_rect(pen, &points[points.len() - 1]))
        }
    }
}

fn square_rect(pen: &Pen, p: &Point) -> Rect
    ensures area { area result ≡ square pen.now.half p.now }
    ensures near { IsWithin (pos (2 ^ 32)) (area result) }
{
    Rect {
        x1: pen.before(&p.x),
        y1: pen.before(&p.y),
        x2: pen.after(&p.x),
        y2: pen.after(&p.y),
    }
}

/// How many rectangles `path_rects` gives, at any width.
pub fn path_count(points: &[Point], end: PathEnd) -> u64
    requires { 2 ≤ length points.now }
    ensures { (half : ℤ) → result ≡ length (path_areas half end points.now) }
{
    let squares = match end {
        PathEnd::Flush => points.len() as u64 - 2,
        PathEnd::Square => points.len() as u64,
    };
    squares + segment_count(&points[0], &points[1..])
}

// How many segments of the line that goes on from the first point over the others have a length.
#[tactic(auto, using(crate::proofs::Paths::length_kept))]
fn segment_count(first: &Point, rest: &[Point]) -> u64
    ensures small { result ≤ length rest.now }
    ensures value { result ≡ length (filter has_length (sides_from first.now rest.now)) }
{
    let mut count = 0u64;
    let mut last = *first;
    for point in rest {
        count += one_if_long(&last, point);
        last = *point;
    }
    count
}

// One where the segment has a length, else none.
fn one_if_long(p: &Point, q: &Point) -> u64
    ensures small { result ≤ 1 }
    ensures value { result ≡ length (filter has_length ((p.now, q.now) ∷ [])) }
{
    if p.x == q.x && p.y == q.y { 0 } else { 1 }
}
