//! The rectangle that a polygon goes around, where it is no more than that.
ghost use Rattle.std.specs.Prelude.{◌↔◌, ◌^◌, pos, IsTrue, MatchOption};
ghost use Rattle.rt_base.specs.Plane.{area};
ghost use Rattle.gds_slabs.specs.Polygon.{IsClosed, IsSlanted, IsSlantedSide, GoesAround};
ghost use Rattle.gds_slabs.specs.Slabs.{IsOnlySlab};
ghost use Rattle.gds_slabs.specs.Steps.{IsWithin, AreCorners};

use crate::areas::{greater, lesser};
use crate::polygon::is_slanted_side;
use rt_base::{Point, Rect};

/// The rectangle that a closed polygon without slanted sides goes around from corner to corner, if it does. It's the only one
/// that `slabs` gives then, and no sweep is needed. (This project's own.)
pub fn rectangle_around(points: &[Point]) -> Option<Rect>
    requires closed { IsClosed points.now }
    requires straight { ¬ IsSlanted points.now }
    ensures { MatchOption result (¬ GoesAround points.now) (IsOnlySlab points.now) }
{
    if goes_around(points) {
        Some(spanned(&points[0], &points[2]))
    } else {
        None
    }
}

// Whether there are five points whose diagonals are slanted.
pub(crate) fn goes_around(points: &[Point]) -> bool
    ensures { IsTrue result ↔ GoesAround points.now }
{
    match points {
        [first, second, third, fourth, _] => {
            is_slanted_side(first, third) && is_slanted_side(second, fourth)
        }
        _ => false,
    }
}

// The rectangle of which two points are opposite corners.
fn spanned(p: &Point, q: &Point) -> Rect
    requires { IsSlantedSide (p.now, q.now) }
    ensures corners { AreCorners (p.now.x, p.now.y) (q.now.x, q.now.y) (area result) }
    ensures near { IsWithin (pos (2 ^ 32)) (area result) }
{
    Rect {
        x1: lesser(&p.x, &q.x),
        y1: lesser(&p.y, &q.y),
        x2: greater(&p.x, &q.x),
        y2: greater(&p.y, &q.y),
    }
}
