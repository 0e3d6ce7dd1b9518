//! Turns of a point about the origin.
ghost use Rattle.std.specs.Prelude.{◌≡◌};
ghost use Rattle.rt_base.specs.Plane.{turned, reflected, quarter_turned, AreCoordinates};

use crate::plane::Orient;

/// The point that a turn about the origin takes `p` to: the reflection first, then the quarters.
/// Coordinates have a magnitude of at most 2^61. (GDSII Release 6.)
#[tactic(auto, using(crate::proofs::Quarters::more))]
pub fn turn(o: Orient, p: (i64, i64)) -> (i64, i64)
    requires { AreCoordinates p }
    ensures { result ≡ turned o p }
{
    let mut q = reflect(o.reflect, p);
    for _i in 0..o.quarters {
        q = quarter(q);
    }
    q
}

// The point reflected about the x axis, or as it is.
fn reflect(reflect: bool, p: (i64, i64)) -> (i64, i64)
    requires { AreCoordinates p }
    ensures value { result ≡ reflected reflect p }
    ensures small { AreCoordinates result }
{
    if reflect { (p.0, -p.1) } else { p }
}

// The point turned counterclockwise by a quarter.
fn quarter(p: (i64, i64)) -> (i64, i64)
    requires { AreCoordinates p }
    ensures value { result ≡ quarter_turned p }
    ensures small { AreCoordinates result }
{
    (-p.1, p.0)
}
