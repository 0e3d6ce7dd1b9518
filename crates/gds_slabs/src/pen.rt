//! What a path is drawn with, and the rectangles that it draws. It knows no points but the ones that it is given.
ghost use Rattle.std.specs.Prelude.{◌≡◌, ◌^◌, pos, ◌+ℤ◌, ◌-ℤ◌, ◌<ℤ◌, ◌≤ℤ◌};

/// What a path is drawn with. Lengths are in database units.
#[derive(Drop)]
pub struct Pen {
    /// Half of the path's width.
    pub half: i64,
    ghost some: { pos 0 <ℤ half },
    ghost small: { half ≤ℤ pos (2 ^ 30) },
}

impl Pen {
    ghost use Rattle.rt_base.specs.Plane.{IsCoordinate};
    ghost use Rattle.gds_slabs.specs.Path.{IsPathWidth, half_of};
    ghost use Rattle.gds_slabs.specs.Steps.{IsInReach};

    /// The pen of a width, by its magnitude.
    pub fn new(width: i32) -> Pen
        requires { IsPathWidth width }
        ensures { result.half ≡ half_of width }
    {
        Pen {
            half: i64::from(width.unsigned_abs() / 2),
        }
    }

    /// Half the width before the coordinate.
    pub fn before(&self, coordinate: &i32) -> i64
        ensures value { result ≡ coordinate.now -ℤ self.now.half }
        ensures small { IsCoordinate result }
        ensures near { IsInReach result }
    {
        i64::from(*coordinate) - self.half
    }

    /// Half the width after the coordinate.
    pub fn after(&self, coordinate: &i32) -> i64
        ensures value { result ≡ coordinate.now +ℤ self.now.half }
        ensures small { IsCoordinate result }
        ensures near { IsInReach result }
    {
        i64::from(*coordinate) + self.half
    }
}
