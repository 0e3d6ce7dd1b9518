//! What is odd in an element, in the order of the tests.
ghost use Rattle.gds_flat.specs.Elements.{IsFirstFor, PointsHave, PointsLack, PathHas, PathLacks, PlaceHas, PlaceLacks, HasOdd, LacksOdd};

use crate::ends::end_of;
use crate::error::Odd;
use gds_records::{is_real_one, quarter_turns};
use gds_slabs::{is_path_width, is_slanted};
use gds_stream::{Element, Place};
use rt_base::Point;

// The first odd of an element, if it has one.
pub(crate) fn odd_of(element: &Element) -> Option<Odd>
    ensures { IsFirstFor (HasOdd element.now) (LacksOdd element.now) result }
{
    match element {
        Element::Boundary { points, .. } => odd_of_points(points.as_slice()),
        Element::Path {
            pathtype,
            width,
            points,
            ..
        } => odd_of_path(pathtype, width, points.as_slice()),
        Element::Sref { place, .. } | Element::Aref { place, .. } => odd_of_place(place),
        Element::Label { .. } => None,
        Element::BoxShape { .. } => Some(Odd::BoxElement),
    }
}

fn odd_of_points(points: &[Point]) -> Option<Odd>
    ensures { IsFirstFor (PointsHave points.now) (PointsLack points.now) result }
{
    if is_slanted(points) {
        Some(Odd::Slanted)
    } else {
        None
    }
}

fn odd_of_path(pathtype: &i16, width: &i32, points: &[Point]) -> Option<Odd>
    ensures { IsFirstFor (PathHas pathtype.now width.now points.now) (PathLacks pathtype.now width.now points.now) result }
{
    let Some(_end) = end_of(pathtype) else {
        return Some(Odd::PathType);
    };
    if !is_path_width(*width) {
        return Some(Odd::PathWidth);
    }
    odd_of_points(points)
}

fn odd_of_place(place: &Place) -> Option<Odd>
    ensures { IsFirstFor (PlaceHas place.now) (PlaceLacks place.now) result }
{
    if !is_real_one(place.mag) {
        return Some(Odd::Magnification);
    }
    if quarter_turns(place.angle).is_none() {
        return Some(Odd::Angle);
    }
    if place.flags & 6 != 0 {
        return Some(Odd::Absolute);
    }
    None
}
