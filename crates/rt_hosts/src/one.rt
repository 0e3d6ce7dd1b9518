//! All hosts of one rectangle.
ghost use Rattle.std.specs.Prelude.{◌<◌, ◌^◌, length, map, IfOk, MatchBool};
ghost use Rattle.rt_base.specs.Plane.{area};
ghost use Rattle.rt_strips.specs.Placed.{placed};
ghost use Rattle.rt_hosts.specs.Hosts.{IsHosting, AreHostsOf};

use rt_base::{List, OutOfMemory, Rect};
use rt_strips::Strip;
use std::alloc::Global;

/// The numbers of the strips of mask number `m` that have a cell in common with the rectangle, in rising order. The one error is a want
/// of memory. (This project's own.)
pub fn hosts_of(
    alloc: Global,
    strips: &[Strip],
    m: u32,
    at: &Rect,
) -> Result<List<u32>, OutOfMemory>
    requires { length strips.now < 2 ^ 32 }
    ensures { IfOk result (AreHostsOf m (map placed strips.now) (area at.now)) }
{
    let mut hosts = List::new(alloc);
    for i in 0..strips.len() {
        if is_host(&strips[i], m, at) {
            hosts.push(i as u32)?;
        }
    }
    Ok(hosts)
}

// Whether the strip is of the mask and has a cell in common with the rectangle.
fn is_host(strip: &Strip, m: u32, at: &Rect) -> bool
    ensures { MatchBool result (IsHosting m (placed strip.now) (area at.now)) (¬ IsHosting m (placed strip.now) (area at.now)) }
{
    if strip.mask != m {
        return false;
    }
    if strip.at.x2 <= at.x1 || at.x2 <= strip.at.x1 {
        return false;
    }
    if strip.at.y2 <= at.y1 || at.y2 <= strip.at.y1 {
        return false;
    }
    true
}
