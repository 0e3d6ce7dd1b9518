//! Whether one strip stands on another, and where a strip ends and others of its mask begin.
ghost use Rattle.std.specs.Prelude.{◌<◌, ◌^◌, length, map, MatchBool, IfOk};
ghost use Rattle.rt_strips.specs.Placed.{placed};
ghost use Rattle.rt_strips.specs.Standing.{IsUnder, StandsOn};
ghost use Rattle.rt_strips.specs.StripsOf.{AreStrips};
ghost use Rattle.rt_strips.specs.Seams.{AreSeamsOf};

use crate::listing::{Strip, Strips};
use crate::meeting::meetings_of;
use rt_base::{List, OutOfMemory};
use std::alloc::Global;

/// Whether strip number `above` stands on strip number `below`: both are of one mask, the one ends where the other begins, and they have a common
/// column. It takes no memory. (This project's own.)
pub fn touching(strips: &Strips, below: u32, above: u32) -> bool
    requires lower { below < length strips.now.list }
    requires upper { above < length strips.now.list }
    ensures { MatchBool result (StandsOn (map placed strips.now.list) below above) (¬ StandsOn (map placed strips.now.list) below above) }
{
    let list = strips.list.as_slice();
    stands_on(&list[below as usize], &list[above as usize])
}

// Whether the second strip stands on the first.
#[tactic(auto, using(crate::proofs::Standing::standing))]
pub(crate) fn stands_on(below: &Strip, above: &Strip) -> bool
    ensures { MatchBool result (IsUnder (placed below.now) (placed above.now)) (¬ IsUnder (placed below.now) (placed above.now)) }
{
    if below.mask != above.mask || below.at.y2 != above.at.y1 {
        return false;
    }
    if above.at.x2 <= below.at.x1 || below.at.x2 <= above.at.x1 {
        return false;
    }
    true
}

/// A seam: a strip that begins in the row in which another of its mask ends, over its columns or at one of its corners.
#[derive(Clone, Copy, Drop)]
pub struct Seam {
    /// The number of the strip that ends.
    pub below: u32,
    /// The number of the strip that begins.
    pub above: u32,
}

/// All seams of strips, in order of the strips that begin. The one error is a want of memory. (This project's own.)
pub fn seams(alloc: Global, strips: &[Strip]) -> Result<List<Seam>, OutOfMemory>
    requires few { length strips.now < 2 ^ 32 }
    requires strips { AreStrips (map placed strips.now) }
    ensures { IfOk result (AreSeamsOf (map placed strips.now)) }
{
    let found = meetings_of(alloc, strips)?;
    let mut seams = List::new(alloc);
    for meeting in &found {
        seams.push(Seam {
            below: meeting.below as u32,
            above: meeting.above as u32,
        })?;
    }
    Ok(seams)
}
