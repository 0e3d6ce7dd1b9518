//! The points of an element, where the five of a rectangle need no memory of their own.
ghost use Rattle.std.specs.Prelude.{◌≡◌};

use rt_base::{List, Point};
use std::marker::Model;

/// The points of a polygon or a path, in order. Contracts see the points; how they are kept makes no difference: five of them, as a
/// rectangle has in a stream, take no list of their own.
#[derive(Drop)]
pub struct Points {
    kept: Kept,
}

// How points are kept.
#[derive(Drop)]
enum Kept {
    Five([Point; 5]),
    Listed(List<Point>),
}

impl Model for Points {
    ghost use Rattle.std.specs.Prelude.{List as ListValue};
    ghost use Rattle.rt_base.specs.declared.plane.Point.{Point as PointValue};
    ghost use Rattle.gds_stream.specs.Kept.{points_kept};

    ghost Value = { ListValue PointValue };

    ghost view = { λ p. points_kept p.kept };
}

impl Points {
    /// The points of the list.
    pub fn of(points: List<Point>) -> Points
        ensures { result ≡ points }
    {
        Points {
            kept: Kept::Listed(points),
        }
    }

    /// Five points.
    pub fn five(points: [Point; 5]) -> Points
        ensures { result ≡ points }
    {
        Points {
            kept: Kept::Five(points),
        }
    }

    /// The points in order.
    pub fn as_slice(&self) -> &[Point]
        ensures { result.now ≡ self.now }
    {
        match &self.kept {
            Kept::Five(points) => points,
            Kept::Listed(points) => points.as_slice(),
        }
    }
}
