//! Where a step moves a point and a rectangle.
ghost use Rattle.std.specs.Prelude.{◌≡◌, ◌^◌, pos, ◌+ℤ◌, true};
ghost use Rattle.rt_base.specs.Plane.{area, IsCoordinate, AreCoordinates};
ghost use Rattle.gds_slabs.specs.Steps.{shifted, moved_point as point_moved, moved_rect as rect_moved, rect_reflected, rect_quarter, rect_turned, rect_shifted, IsWithin};

use crate::step::Step;
use rt_base::{Rect, turn};

/// Where the step moves the point. The point and where it comes to have magnitudes of at most 2^61. (GDSII Release 6.)
pub fn moved_point(step: &Step, p: (i64, i64)) -> (i64, i64)
    requires from { AreCoordinates p }
    requires to { AreCoordinates (point_moved step.now p) }
    ensures { result ≡ point_moved step.now p }
{
    let turned = turn(step.orient, p);
    shifted_point(step, &turned)
}

fn shifted_point(step: &Step, p: &(i64, i64)) -> (i64, i64)
    requires { AreCoordinates (shifted step.now p.now) }
    ensures { result ≡ shifted step.now p.now }
{
    (sum(&p.0, &step.dx), sum(&p.1, &step.dy))
}

fn sum(a: &i64, b: &i64) -> i64
    requires { IsCoordinate (a.now +ℤ b.now) }
    ensures { result ≡ a.now +ℤ b.now }
{
    *a + *b
}

/// Where the step moves the rectangle. Coordinates, also those that it comes to, have magnitudes of at most 2^61.
/// (GDSII Release 6.)
pub fn moved_rect(step: &Step, rect: &Rect) -> Rect
    requires { IsWithin (pos (2 ^ 61)) (rect_moved step.now (area rect.now)) }
    ensures { area result ≡ rect_moved step.now (area rect.now) }
{
    let turned = turned_rect(step, rect);
    shifted_rect(step, &turned)
}

fn shifted_rect(step: &Step, rect: &Rect) -> Rect
    requires { IsWithin (pos (2 ^ 61)) (rect_shifted step.now (area rect.now)) }
    ensures { area result ≡ rect_shifted step.now (area rect.now) }
{
    Rect {
        x1: sum(&rect.x1, &step.dx),
        y1: sum(&rect.y1, &step.dy),
        x2: sum(&rect.x2, &step.dx),
        y2: sum(&rect.y2, &step.dy),
    }
}

// The rectangle as the step turns it.
fn turned_rect(step: &Step, rect: &Rect) -> Rect
    ensures { area result ≡ rect_turned step.now.orient.quarters (rect_reflected step.now.orient.reflect (area rect.now)) }
{
    let mirrored = reflected_rect(step.orient.reflect, rect);
    turned_by(step.orient.quarters, &mirrored)
}

fn turned_by(quarters: u8, rect: &Rect) -> Rect
    ensures { area result ≡ rect_turned quarters (area rect.now) }
{
    let mut turned = *rect;
    for _quarter in 0..quarters {
        turned = quarter_rect(&turned);
    }
    turned
}

fn reflected_rect(reflect: bool, rect: &Rect) -> Rect
    ensures { area result ≡ rect_reflected reflect (area rect.now) }
{
    if reflect {
        return mirrored_rect(rect);
    }
    *rect
}

fn mirrored_rect(rect: &Rect) -> Rect
    ensures { area result ≡ rect_reflected true (area rect.now) }
{
    Rect {
        x1: rect.x1,
        y1: -rect.y2,
        x2: rect.x2,
        y2: -rect.y1,
    }
}

fn quarter_rect(rect: &Rect) -> Rect
    ensures { area result ≡ rect_quarter (area rect.now) }
{
    Rect {
        x1: -rect.y2,
        y1: rect.x1,
        x2: -rect.y1,
        y2: rect.x2,
    }
}
