//! The least rectangle around a piece, by its strips.
ghost use Rattle.std.specs.Prelude.{◌≡◌, ◌<◌, ◌^◌, length, map, IfOk, MatchBool};
ghost use Rattle.std.specs.Int.{int_max, int_min};
ghost use Rattle.rt_base.specs.Plane.{area};
ghost use Rattle.rt_strips.specs.Placed.{placed};
ghost use Rattle.rt_strips.specs.Seams.{AreSeamsOf};
ghost use Rattle.rt_strips.specs.Standing.{IsStrip};
ghost use Rattle.rt_pieces.specs.Members.{IsOf};
ghost use Rattle.rt_shapes.specs.Cutting.{IsBoxAround, IsBoxOf, HasNumberOf};

use rt_base::{OutOfMemory, Rect};
use rt_pieces::piece_numbers;
use rt_strips::{Seam, Strip};
use std::alloc::Global;

/// The least rectangle around the strips that are of one piece with strip number `of`. The one error is a want of memory.
pub(crate) fn around(
    alloc: Global,
    strips: &[Strip],
    seams: &[Seam],
    of: u32,
) -> Result<Rect, OutOfMemory>
    requires few { length strips.now < 2 ^ 32 }
    requires seams { AreSeamsOf (map placed strips.now) seams.now }
    requires strip { IsStrip (map placed strips.now) of }
    ensures { IfOk result (λ rect. IsBoxAround (map placed strips.now) of (area rect)) }
{
    let m = strips[of as usize].mask;
    let numbers = piece_numbers(alloc, strips, seams, m)?;
    Ok(box_of_number(strips, m, numbers.as_slice(), of))
}

// The least rectangle around those strips of the mask that have the number of strip `of`.
fn box_of_number(strips: &[Strip], m: u32, numbers: &[u32], of: u32) -> Rect
    requires counted { length numbers.now ≡ length strips.now }
    requires strip { IsOf m (map placed strips.now) of }
    ensures { IsBoxOf m (map placed strips.now) numbers.now of (length strips.now) (area result) }
{
    let mut rect = strips[of as usize].at;
    for i in 0..strips.len() {
        if has_number(strips, m, numbers, of, i) {
            rect = joined(&rect, &strips[i].at);
        }
    }
    rect
}

// Whether strip number `i` is of the mask, and has the number of strip `of`.
fn has_number(strips: &[Strip], m: u32, numbers: &[u32], of: u32, i: usize) -> bool
    requires counted { length numbers.now ≡ length strips.now }
    requires piece { IsOf m (map placed strips.now) of }
    requires strip { i < length strips.now }
    ensures { MatchBool result (HasNumberOf m (map placed strips.now) numbers.now of i) (¬ HasNumberOf m (map placed strips.now) numbers.now of i) }
{
    strips[i].mask == m && numbers[i] == numbers[of as usize]
}

// The least rectangle around two.
fn joined(a: &Rect, b: &Rect) -> Rect
    ensures left { result.x1 ≡ int_min a.now.x1 b.now.x1 }
    ensures right { result.x2 ≡ int_max a.now.x2 b.now.x2 }
    ensures bottom { result.y1 ≡ int_min a.now.y1 b.now.y1 }
    ensures top { result.y2 ≡ int_max a.now.y2 b.now.y2 }
{
    Rect {
        x1: lesser(&a.x1, &b.x1),
        y1: lesser(&a.y1, &b.y1),
        x2: greater(&a.x2, &b.x2),
        y2: greater(&a.y2, &b.y2),
    }
}

// The lesser of two numbers.
fn lesser(a: &i64, b: &i64) -> i64
    ensures { result ≡ int_min a.now b.now }
{
    if *a < *b { *a } else { *b }
}

// The greater of two numbers.
fn greater(a: &i64, b: &i64) -> i64
    ensures { result ≡ int_max a.now b.now }
{
    if *a < *b { *b } else { *a }
}
