//! One host for each of many rectangles.
ghost use Rattle.std.specs.Prelude.{◌+◌, ◌<◌, ◌^◌, length, map, IfOk, OnOk};
ghost use Rattle.rt_strips.specs.Placed.{placed};
ghost use Rattle.rt_hosts.specs.Hosts.{AreNone, AreSomeHosts};

use crate::across::look_across;
use crate::bars::bars_of;
use rt_base::{List, OutOfMemory, Rect};
use rt_strips::Strip;
use rt_sweep::Sweep;
use std::alloc::Global;

/// For each rectangle, in order, the number of a strip of mask number `m` that has a cell in common with it; None exactly where there is no
/// such strip. The rectangles stand in any order and may overlap. The one error is a want of memory. (This project's own.)
pub fn some_hosts(
    alloc: Global,
    strips: &[Strip],
    m: u32,
    areas: &[Rect],
) -> Result<List<Option<u32>>, OutOfMemory>
    requires { length areas.now + length strips.now < 2 ^ 32 }
    ensures { IfOk result (AreSomeHosts m (map placed strips.now) areas.now) }
{
    let mut hosts = none_yet(alloc, areas)?;
    look_up(alloc, strips, m, areas, hosts.as_mut_slice())?;
    Ok(List::of(hosts))
}

// No host for any of the rectangles.
fn none_yet(alloc: Global, areas: &[Rect]) -> Result<Vec<Option<u32>>, OutOfMemory>
    ensures { IfOk result (λ hosts. AreNone (length areas.now) hosts.items) }
{
    let mut hosts = Vec::new(alloc);
    for _area in areas {
        hosts.push(None)?;
    }
    Ok(hosts)
}

// Notes a host for each rectangle that has one.
fn look_up(
    alloc: Global,
    strips: &[Strip],
    m: u32,
    areas: &[Rect],
    hosts: &mut [Option<u32>],
) -> Result<(), OutOfMemory>
    requires few { length areas.now + length strips.now < 2 ^ 32 }
    requires none { AreNone (length areas.now) hosts.old }
    ensures { OnOk result (AreSomeHosts m (map placed strips.now) areas.now hosts.new) }
{
    let bars = bars_of(alloc, strips, m, areas)?;
    let mut sweep = Sweep::new(alloc, bars)?;
    while let Some(_slab) = sweep.next_slab()? {
        look_across(sweep.active(), hosts);
    }
    Ok(())
}
