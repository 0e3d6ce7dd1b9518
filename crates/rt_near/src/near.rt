//! Pairs of intervals of one group that lie near each other: by a sort, and a sweep along the line.
ghost use Rattle.std.specs.Prelude.{◌<◌, ◌^◌, length, pos, ◌≤ℤ◌, All, IfOk};
ghost use Rattle.rt_near.specs.Near.{IsInterval, ListsNearPairs};

use crate::entry::sorted_entries;
use crate::pairs::pairs_of;
use rt_base::{List, OutOfMemory};
use std::alloc::Global;

/// An interval of a line, from `low` up to, and without, `high`, and the number of its group. (This project's own.)
#[derive(Clone, Copy, Drop)]
pub struct Sides {
    /// The group's number. Only intervals of one group are near each other.
    pub group: u32,
    /// Its first place.
    pub low: i64,
    /// The place behind its last one, above `low`.
    pub high: i64,
}

/// The numbers of each two intervals of one group between which fewer places lie than the group's reach, 0 where they meet or adjoin: the
/// smaller number first, each pair at least once, in no order that is told. A group that `reaches` doesn't name has no pairs.
/// It takes the time of a sort and of the pairs. The one error is a want of memory. (This project's own.)
pub fn near_pairs(
    alloc: Global,
    sides: &[Sides],
    reaches: &[i64],
) -> Result<List<(u32, u32)>, OutOfMemory>
    requires few { length sides.now < 2 ^ 32 }
    requires intervals { All IsInterval sides.now }
    ensures { IfOk result (ListsNearPairs sides.now reaches.now) }
{
    let entries = sorted_entries(alloc, sides, reaches)?;
    pairs_of(alloc, entries.as_slice())
}
