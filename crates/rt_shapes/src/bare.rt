//! Which masks cover which strips.
ghost use Rattle.std.specs.Prelude.{◌≡◌, ◌≢◌, ◌<◌, ◌^◌, length, map, None, IfOk, MatchBool};
ghost use Rattle.rt_strips.specs.Placed.{placed};
ghost use Rattle.rt_strips.specs.StripsOf.{AreStrips};
ghost use Rattle.rt_cover.specs.Covering.{found_at};
ghost use Rattle.rt_shapes.specs.Cutting.{place_of, AreOfMasks};
ghost use Rattle.rt_shapes.specs.Sides.{CoversStrip, IsBareTable};

use rt_base::{Cell, List, OutOfMemory, Rect};
use rt_cover::first_missing;
use rt_strips::Strip;
use std::alloc::Global;

/// For each of so many masks and each strip a cell of the strip that the mask leaves bare, or none where it covers the strip whole: one sweep a mask. The
/// one error is a want of memory.
pub(crate) fn bare_table(
    alloc: Global,
    strips: &[Strip],
    masks: u32,
) -> Result<List<List<Option<Cell>>>, OutOfMemory>
    requires few { length strips.now < 2 ^ 30 }
    requires strips { AreStrips (map placed strips.now) }
    requires masks { AreOfMasks masks (map placed strips.now) }
    ensures { IfOk result (IsBareTable (map placed strips.now)) }
{
    let places = places(alloc, strips)?;
    let mut table = List::new(alloc);
    for m in 0..masks {
        table.push(first_missing(alloc, strips, m, places.as_slice())?)?;
    }
    Ok(table)
}

// The rectangles of the strips.
fn places(alloc: Global, strips: &[Strip]) -> Result<Vec<Rect>, OutOfMemory>
    ensures { IfOk result (λ places. places.items ≡ map place_of strips.now) }
{
    let mut places = Vec::new(alloc);
    for strip in strips {
        places.push(strip.at)?;
    }
    Ok(places)
}

/// Whether mask number `m` covers strip number `i` whole. It takes no memory.
pub(crate) fn covers(strips: &[Strip], table: &[List<Option<Cell>>], m: u32, i: usize) -> bool
    requires table { IsBareTable (map placed strips.now) table.now }
    requires strip { i < length strips.now }
    ensures { MatchBool result (CoversStrip (map placed strips.now) i m) (¬ CoversStrip (map placed strips.now) i m) }
{
    if m as usize >= table.len() {
        return false;
    }
    is_clear(table[m as usize].as_slice(), i)
}

// Whether no cell stands at the place.
fn is_clear(row: &[Option<Cell>], i: usize) -> bool
    requires { i < length row.now }
    ensures { MatchBool result (found_at row.now i ≡ None) (found_at row.now i ≢ None) }
{
    match row[i] {
        Some(_) => false,
        None => true,
    }
}
