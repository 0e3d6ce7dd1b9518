//! The data of records as values. (GDSII Release 6.)
ghost use Rattle.std.specs.Prelude.{◌≡◌, [], ◌∷◌, length, unwrap_or, option_copied, IfOk, IfSome, FitsSigned};
ghost use Rattle.std.specs.Int.{w16, w32, from_be_bytes};
ghost use Rattle.rt_base.specs.Text.{IsText};
ghost use Rattle.gds_grammar.specs.Conditions.{trim};
ghost use Rattle.gds_stream.specs.Contents.{two_bytes, four_bytes, points_in, first_of};

use crate::points::Points;
use rt_base::{List, OutOfMemory, Point, Text};
use std::alloc::Global;

/// The signed number of two bytes.
pub fn i16_of(bytes: &[u8]) -> i16
    requires { length bytes.now ≡ 2 }
    ensures value { result ≡ two_bytes bytes.now }
    ensures fits { FitsSigned w16 result }
{
    i16::from_be_bytes([bytes[0], bytes[1]])
}

/// The unsigned number of two bytes.
pub fn u16_of(bytes: &[u8]) -> u16
    requires { length bytes.now ≡ 2 }
    ensures { result ≡ from_be_bytes w16 bytes.now }
{
    u16::from_be_bytes([bytes[0], bytes[1]])
}

/// The signed number of four bytes.
pub fn i32_of(bytes: &[u8]) -> i32
    requires { length bytes.now ≡ 4 }
    ensures value { result ≡ four_bytes bytes.now }
    ensures fits { FitsSigned w32 result }
{
    i32::from_be_bytes([bytes[0], bytes[1], bytes[2], bytes[3]])
}

/// The first point of some data.
pub fn point_of(bytes: &[u8]) -> Point
    ensures { result ≡ first_of (points_in bytes.now) }
{
    let [a, b, c, d, e, f, g, h, ..] = bytes else {
        return Point { x: 0, y: 0 };
    };
    Point {
        x: i32::from_be_bytes([*a, *b, *c, *d]),
        y: i32::from_be_bytes([*e, *f, *g, *h]),
    }
}

/// The points of some data.
pub fn points_of(alloc: Global, bytes: &[u8]) -> Result<Points, OutOfMemory>
    ensures { IfOk result (λ points. points ≡ points_in bytes.now) }
{
    if bytes.len() == 40 {
        return Ok(Points::five(five_points(bytes)));
    }
    let points = listed(alloc, bytes)?;
    Ok(Points::of(points))
}

// The points of some data, as a list.
fn listed(alloc: Global, bytes: &[u8]) -> Result<List<Point>, OutOfMemory>
    ensures { IfOk result (λ points. points ≡ points_in bytes.now) }
{
    let mut points = Vec::with_capacity(alloc, bytes.len() / 8)?;
    let mut rest = bytes;
    while rest.len() >= 8 {
        points.push(point_of(rest))?;
        rest = &rest[8..];
    }
    Ok(List::of(points))
}

// The five points of some data.
fn five_points(bytes: &[u8]) -> [Point; 5]
    requires { length bytes.now ≡ 40 }
    ensures { result ≡ points_in bytes.now }
{
    [
        point_of(bytes),
        point_of(&bytes[8..]),
        point_of(&bytes[16..]),
        point_of(&bytes[24..]),
        point_of(&bytes[32..]),
    ]
}

/// The three points of some data.
pub fn three_points(bytes: &[u8]) -> [Point; 3]
    requires { length bytes.now ≡ 24 }
    ensures { result ≡ points_in bytes.now }
{
    [
        point_of(bytes),
        point_of(&bytes[8..]),
        point_of(&bytes[16..]),
    ]
}

/// The signed number of two bytes, 0 where there are none.
pub fn i16_or_zero(bytes: Option<&[u8]>) -> i16
    requires { IfSome bytes (λ b. length b.now ≡ 2) }
    ensures value { result ≡ two_bytes (unwrap_or (option_copied bytes.entry) (0 ∷ 0 ∷ [])) }
    ensures fits { FitsSigned w16 result }
{
    match bytes {
        Some(two) => i16_of(two),
        None => 0,
    }
}

/// The signed number of four bytes, 0 where there are none.
pub fn i32_or_zero(bytes: Option<&[u8]>) -> i32
    requires { IfSome bytes (λ b. length b.now ≡ 4) }
    ensures value { result ≡ four_bytes (unwrap_or (option_copied bytes.entry) (0 ∷ 0 ∷ 0 ∷ 0 ∷ [])) }
    ensures fits { FitsSigned w32 result }
{
    match bytes {
        Some(four) => i32_of(four),
        None => 0,
    }
}

/// The eight bytes of a real, or others where there are none.
pub fn real_or(bytes: Option<&[u8]>, other: [u8; 8]) -> [u8; 8]
    requires { IfSome bytes (λ b. length b.now ≡ 8) }
    ensures { result ≡ unwrap_or (option_copied bytes.entry) other }
{
    let Some(eight) = bytes else {
        return other;
    };
    let mut real = [0; 8];
    real.copy_from_slice(eight);
    real
}

/// The sixteen bytes of two reals.
pub fn units_of(bytes: &[u8]) -> [u8; 16]
    requires { length bytes.now ≡ 16 }
    ensures { result ≡ bytes.now }
{
    let mut units = [0; 16];
    units.copy_from_slice(bytes);
    units
}

/// The text of some data, without the zeros at their end.
pub fn text_of(alloc: Global, bytes: &[u8]) -> Result<Text, OutOfMemory>
    requires { IsText (trim bytes.now) }
    ensures { IfOk result (λ text. text ≡ trim bytes.now) }
{
    let list = List::of(Vec::from_slice(alloc, without_zeros(bytes))?);
    let Some(text) = Text::of(list) else {
        unreachable!()
    };
    Ok(text)
}

/// The bytes without the zeros at their end.
pub fn without_zeros(bytes: &[u8]) -> &[u8]
    ensures { result.now ≡ trim bytes.now }
{
    let mut end = bytes.len();
    while end > 0 && bytes[end - 1] == 0 {
        end -= 1;
    }
    &bytes[..end]
}
