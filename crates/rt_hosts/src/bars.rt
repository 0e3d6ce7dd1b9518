//! Rectangles and the strips of a mask, under one count, as bars of one sweep.
ghost use Rattle.std.specs.Prelude.{◌+◌, ◌<◌, ◌^◌, length, map, IfOk, OnOk};
ghost use Rattle.rt_strips.specs.Placed.{placed};
ghost use Rattle.rt_hosts.specs.Bars.{AreBarsOf};

use rt_base::{OutOfMemory, Rect};
use rt_strips::Strip;
use rt_sweep::Bar;
use std::alloc::Global;

/// The rectangles as bars, tagged by their numbers from 0, and the strips of mask number `m`, tagged by their numbers behind the count of the
/// rectangles. The one error is a want of memory.
pub(crate) fn bars_of(
    alloc: Global,
    strips: &[Strip],
    m: u32,
    areas: &[Rect],
) -> Result<Vec<Bar>, OutOfMemory>
    requires { length areas.now + length strips.now < 2 ^ 32 }
    ensures { IfOk result (λ bars. AreBarsOf m (map placed strips.now) areas.now (length areas.now + length strips.now) bars.items) }
{
    let mut bars = Vec::new(alloc);
    for i in 0..areas.len() {
        bars.push(Bar {
            at: areas[i],
            tag: i as u32,
        })?;
    }
    add_strips(&mut bars, strips, m, areas)?;
    Ok(bars)
}

// Appends the strips of the mask.
fn add_strips(
    bars: &mut Vec<Bar>,
    strips: &[Strip],
    m: u32,
    areas: &[Rect],
) -> Result<(), OutOfMemory>
    requires few { length areas.now + length strips.now < 2 ^ 32 }
    requires bars { AreBarsOf m (map placed strips.now) areas.now (length areas.now) bars.old.items }
    ensures { OnOk result (AreBarsOf m (map placed strips.now) areas.now (length areas.now + length strips.now) bars.new.items) }
{
    for i in 0..strips.len() {
        let strip = &strips[i];
        if strip.mask == m {
            bars.push(Bar {
                at: strip.at,
                tag: (areas.len() + i) as u32,
            })?;
        }
    }
    Ok(())
}
