//! Pairs of strips among which all hosts are.
ghost use Rattle.std.specs.Prelude.{◌≡◌, ◌<◌, pos, ◌+ℤ◌, length, map, IfOk, OnOk};
ghost use Rattle.rt_tech.specs.Tech.{IsReach};
ghost use Rattle.rt_view.specs.Job.{IsJob};
ghost use Rattle.rt_between.specs.Pairing.{side_of, HoldHosts, AreEachAdded, AreOwnAdded};

use crate::near::near_of_two;
use rt_base::{List, OutOfMemory};
use rt_near::Sides;
use rt_strips::Strip;
use rt_tech::Enclose;
use rt_view::Job;
use std::alloc::Global;

/// The rows of the strips, grouped by their masks. The one error is a want of memory. (This project's own.)
pub fn rows_of(alloc: Global, strips: &[Strip]) -> Result<Vec<Sides>, OutOfMemory>
    ensures { IfOk result (λ sides. sides.items ≡ map side_of strips.now) }
{
    let sides = strips
        .iter()
        .map(|strip| Sides {
            group: strip.mask,
            low: strip.at.y1,
            high: strip.at.y2,
        })
        .collect(alloc)?;
    Ok(sides)
}

/// Pairs of strips among which is each strip with each of its hosts under an enclosure of the source's table, by its number from 0, in one order or
/// the other: by the rows of the strips. It takes the time of a sort and of the pairs. The one error is a want of memory. (This project's own.)
pub fn host_pairs(
    alloc: Global,
    job: &Job,
    rows: &[Sides],
    q: u32,
) -> Result<List<(u32, u32)>, OutOfMemory>
    requires job { IsJob job.now }
    requires rows { rows.now ≡ map side_of job.now.view.strips.list }
    requires there { q < length job.now.source.encloses }
    ensures { IfOk result (HoldHosts job.now q) }
{
    let enclose = &job.source.encloses.as_slice()[q as usize];
    let mut pairs = near_of_two(alloc, rows, enclose.cut, enclose.mask, past_reach(enclose))?;
    add_own(&mut pairs, enclose, rows.len() as u32)?;
    Ok(pairs)
}

// One more than how far the enclosure reaches: strips that overlap the grown ones have fewer rows than that between them.
fn past_reach(enclose: &Enclose) -> i64
    requires { IsReach enclose.now.number }
    ensures { result ≡ enclose.now.number +ℤ pos 1 }
{
    enclose.number + 1
}

// Adds each of so many strips with itself, where the enclosure's mask is its cut: no valid table has such an enclosure.
fn add_own(pairs: &mut List<(u32, u32)>, enclose: &Enclose, count: u32) -> Result<(), OutOfMemory>
    ensures { OnOk result (AreOwnAdded enclose.now count pairs.old pairs.new) }
{
    if enclose.cut == enclose.mask {
        add_each(pairs, count)
    } else {
        Ok(())
    }
}

// Adds each of so many numbers with itself.
fn add_each(pairs: &mut List<(u32, u32)>, count: u32) -> Result<(), OutOfMemory>
    ensures { OnOk result (AreEachAdded count pairs.old pairs.new) }
{
    for i in 0..count {
        pairs.push((i, i))?;
    }
    Ok(())
}
