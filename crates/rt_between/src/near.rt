//! Intervals of two groups that lie near each other, by the sort and the sweep of rt_near.
ghost use Rattle.std.specs.Prelude.{◌≡◌, ◌<◌, ◌^◌, length, map, All, IfOk};
ghost use Rattle.rt_near.specs.Near.{IsInterval};
ghost use Rattle.rt_between.specs.Pairing as spec;
ghost use Rattle.rt_between.specs.Pairing.{grouped_side, HoldNearOfTwo};

use rt_base::{List, OutOfMemory};
use rt_near::{Sides, near_pairs};
use std::alloc::Global;

/// The numbers of each two intervals, each of one of two groups, between which fewer places lie than the reach, 0 where they meet or adjoin: in one
/// order or the other. It takes the time of a sort and of the pairs. The one error is a want of memory. (This project's own.)
pub fn near_of_two(
    alloc: Global,
    sides: &[Sides],
    first: u32,
    second: u32,
    reach: i64,
) -> Result<List<(u32, u32)>, OutOfMemory>
    requires few { length sides.now < 2 ^ 32 }
    requires intervals { All IsInterval sides.now }
    ensures { IfOk result (HoldNearOfTwo sides.now first second reach) }
{
    let grouped = in_one_group(alloc, sides, first, second)?;
    near_pairs(alloc, grouped.as_slice(), &[reach])
}

// The intervals, those of both groups in group 0, and the others in group 1.
fn in_one_group(
    alloc: Global,
    sides: &[Sides],
    first: u32,
    second: u32,
) -> Result<Vec<Sides>, OutOfMemory>
    ensures { IfOk result (λ grouped. grouped.items ≡ map (grouped_side first second) sides.now) }
{
    let grouped = sides
        .iter()
        .map(|side| in_group(side, first, second))
        .collect(alloc)?;
    Ok(grouped)
}

// The interval in group 0 where it is of one of the two groups, and else in group 1.
fn in_group(side: &Sides, first: u32, second: u32) -> Sides
    ensures { result ≡ grouped_side first second side.now }
{
    let group = if is_of_two(side.group, first, second) {
        0
    } else {
        1
    };
    Sides {
        group,
        low: side.low,
        high: side.high,
    }
}

// Whether the group is one of the two.
fn is_of_two(group: u32, first: u32, second: u32) -> bool
    ensures { result ≡ spec.is_of_two first second group }
{
    group == first || group == second
}
