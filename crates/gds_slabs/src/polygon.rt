//! When a polygon is closed, and when a side of it is slanted.
ghost use Rattle.std.specs.Prelude.{◌≡◌, ◌↔◌, IsTrue};
ghost use Rattle.std.specs.List.{list_any};
ghost use Rattle.gds_slabs.specs.Polygon.{sides_from, slanted, IsClosed, IsSlanted};

use rt_base::Point;

/// Whether the last point is the first one. (GDSII Release 6: BOUNDARY.)
#[tactic(auto, using(crate::proofs::Slants::closed_decided))]
pub fn is_closed(points: &[Point]) -> bool
    ensures { IsTrue result ↔ IsClosed points.now }
{
    if points.is_empty() {
        return true;
    }
    same_point(&points[points.len() - 1], &points[0])
}

fn same_point(p: &Point, q: &Point) -> bool
    ensures { IsTrue result ↔ (p.now ≡ q.now) }
{
    p.x == q.x && p.y == q.y
}

/// Whether some side of the line over the points is slanted: neither along a row nor along a column. (This project's own.)
#[tactic(auto, using(crate::proofs::Slants::any_slanted))]
pub fn is_slanted(points: &[Point]) -> bool
    ensures { IsTrue result ↔ IsSlanted points.now }
{
    match points.split_first() {
        Some((first, rest)) => goes_slanted(first, rest),
        None => false,
    }
}

// Whether some side of the line that goes on from the first point over the others is slanted.
fn goes_slanted(first: &Point, rest: &[Point]) -> bool
    ensures { result ≡ list_any slanted (sides_from first.now rest.now) }
{
    let mut last = *first;
    for point in rest {
        if is_slanted_side(&last, point) {
            return true;
        }
        last = *point;
    }
    false
}

pub(crate) fn is_slanted_side(p: &Point, q: &Point) -> bool
    ensures { result ≡ slanted (p.now, q.now) }
{
    p.x != q.x && p.y != q.y
}
