//! Strips of one mask that are near each other and of different groups.
ghost use Rattle.std.specs.Prelude.{◌≡◌, ◌<◌, ◌^◌, ◌+ℤ◌, length, map, IfOk, MatchOption};
ghost use Rattle.std.specs.Int.{int_min};
ghost use Rattle.rt_base.specs.Plane.{area, IsSide};
ghost use Rattle.rt_tech.specs.Tech.{IsReach};
ghost use Rattle.rt_strips.specs.Placed.{placed};
ghost use Rattle.rt_pieces.specs.Members.{IsOf};
ghost use Rattle.rt_drc.specs.Nearness.{farthest, grown, AreBarsBefore, NearAreGrouped, AreNearStrangers};

use crate::clash::first_clash;
use crate::reach::Reach;
use rt_base::{OutOfMemory, Rect};
use rt_strips::Strip;
use rt_sweep::Bar;
use std::alloc::Global;

/// The numbers of two strips.
#[derive(Clone, Copy, Drop)]
pub(crate) struct Pair {
    /// One of them.
    pub(crate) first: u32,
    /// The other one.
    pub(crate) second: u32,
}

/// The farthest that a side of a rectangle may lie.
pub(crate) const FARTHEST: i64 = 4_611_686_018_427_387_903;

/// Two strips of mask number `m` that are near and of different groups, if there are any. Strip i is of the group `groups[i]`.
/// The one error is a want of memory.
pub(crate) fn first_near(
    alloc: Global,
    strips: &[Strip],
    m: u32,
    groups: &[u32],
    reach: &Reach,
) -> Result<Option<Pair>, OutOfMemory>
    requires few { length strips.now < 2 ^ 32 }
    requires groups { length groups.now ≡ length strips.now }
    ensures { IfOk result (λ found. MatchOption found
        (NearAreGrouped (IsOf m (map placed strips.now)) reach.now (map placed strips.now) groups.now)
        (λ pair. AreNearStrangers (IsOf m (map placed strips.now)) reach.now (map placed strips.now) groups.now pair.first pair.second)) }
{
    let bars = grown_bars(alloc, strips, m, reach)?;
    match first_clash(alloc, bars, groups)? {
        Some(clash) => Ok(Some(Pair {
            first: clash.first.tag,
            second: clash.second.tag,
        })),
        None => Ok(None),
    }
}

// The strips of the mask as bars that are grown by the reach, tagged by their numbers.
fn grown_bars(
    alloc: Global,
    strips: &[Strip],
    m: u32,
    reach: &Reach,
) -> Result<Vec<Bar>, OutOfMemory>
    requires few { length strips.now < 2 ^ 32 }
    ensures { IfOk result (λ bars. AreBarsBefore (IsOf m (map placed strips.now)) reach.now (map placed strips.now) (length strips.now) bars.items) }
{
    let mut bars = Vec::new(alloc);
    for i in 0..strips.len() {
        let strip = &strips[i];
        if strip.mask == m {
            bars.push(Bar {
                at: grown(&strip.at, reach),
                tag: i as u32,
            })?;
        }
    }
    Ok(bars)
}

/// The rectangle grown to the right and upwards by the reach, as far as a side may lie.
pub(crate) fn grown(at: &Rect, reach: &Reach) -> Rect
    ensures { area result ≡ grown reach.now (area at.now) }
{
    let right = farther(at.x2, reach.across);
    let top = farther(at.y2, reach.upwards);
    Rect {
        x1: at.x1,
        y1: at.y1,
        x2: right,
        y2: top,
    }
}

// The side moved on, as far as a side may lie.
fn farther(side: i64, by: i64) -> i64
    requires side { IsSide side }
    requires by { IsReach by }
    ensures { result ≡ int_min (side +ℤ by) farthest }
{
    if side < FARTHEST - by {
        side + by
    } else {
        FARTHEST
    }
}
