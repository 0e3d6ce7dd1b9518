//! The search for what breaks a rule of distance.
ghost use Rattle.std.specs.Prelude.{◌≡◌, ◌≢◌, ◌<◌, ◌^◌, pos, ◌≤ℤ◌, length, map, IfOk, MatchOption, MatchBool};
ghost use Rattle.rt_tech.specs.Tech.{IsLength};
ghost use Rattle.rt_rules.specs.Cuts.{KeepsApart};
ghost use Rattle.rt_strips.specs.Placed.{placed};
ghost use Rattle.rt_pieces.specs.Members.{AreOfFamily, held_by};
ghost use Rattle.rt_drc.specs.Counting.{counted_cells};
ghost use Rattle.rt_drc.specs.Nearness.{AreBarsBefore};
ghost use Rattle.rt_drc.specs.Distances.{TakesPart, AreNearAcross, AreNearPair, AreFarAcross, ShowsApart};

use crate::clash::first_clash;
use crate::counting::{Counted, counts};
use crate::near::{Pair, grown};
use crate::pieces::cells_of_pair;
use crate::reach::Reach;
use crate::rows::Witness;
use rt_base::OutOfMemory;
use rt_strips::Strip;
use rt_sweep::Bar;
use std::alloc::Global;

/// A cell of the counted strips and a cell of mask number `other`, another mask, with fewer columns and fewer rows between them than the number, if there
/// are any. The one error is a want of memory. (This project's own.)
pub fn distance_breach(
    alloc: Global,
    strips: &[Strip],
    counted: &Counted<'_>,
    other: u32,
    number: &i64,
) -> Result<Option<Witness>, OutOfMemory>
    requires few { length strips.now < 2 ^ 32 }
    requires lowers { length counted.now.lowers.now ≡ length strips.now }
    requires number { IsLength number.now }
    requires different { counted.now.mask ≢ other }
    requires first { AreOfFamily counted.now.mask strips.now }
    requires second { AreOfFamily other strips.now }
    ensures { IfOk result (λ found. MatchOption found
        (KeepsApart number.now (counted_cells counted.now strips.now) (held_by other strips.now))
        (ShowsApart number.now (counted_cells counted.now strips.now) (held_by other strips.now))) }
{
    let reach = Reach {
        across: *number,
        upwards: *number,
    };
    breach_within(alloc, strips, counted, other, &reach)
}

// The same with a reach, which is the number on both axes.
fn breach_within(
    alloc: Global,
    strips: &[Strip],
    counted: &Counted<'_>,
    other: u32,
    reach: &Reach,
) -> Result<Option<Witness>, OutOfMemory>
    requires few { length strips.now < 2 ^ 32 }
    requires lowers { length counted.now.lowers.now ≡ length strips.now }
    requires across { pos 1 ≤ℤ reach.now.across }
    requires upwards { reach.now.upwards ≡ reach.now.across }
    requires different { counted.now.mask ≢ other }
    requires first { AreOfFamily counted.now.mask strips.now }
    requires second { AreOfFamily other strips.now }
    ensures { IfOk result (λ found. MatchOption found
        (KeepsApart reach.now.across (counted_cells counted.now strips.now) (held_by other strips.now))
        (ShowsApart reach.now.across (counted_cells counted.now strips.now) (held_by other strips.now))) }
{
    match near_strips(alloc, strips, counted, other, reach)? {
        Some(pair) => Ok(Some(cells_of_pair(
            strips,
            &counted_first(strips, counted, other, reach, &pair),
        ))),
        None => Ok(None),
    }
}

// Two strips that are near, one of them counted and the other one of the other mask, if there are any.
fn near_strips(
    alloc: Global,
    strips: &[Strip],
    counted: &Counted<'_>,
    other: u32,
    reach: &Reach,
) -> Result<Option<Pair>, OutOfMemory>
    requires few { length strips.now < 2 ^ 32 }
    requires lowers { length counted.now.lowers.now ≡ length strips.now }
    requires different { counted.now.mask ≢ other }
    ensures { IfOk result (λ found. MatchOption found
        (AreFarAcross counted.now other reach.now (map placed strips.now))
        (λ pair. AreNearPair counted.now other reach.now (map placed strips.now) pair.first pair.second)) }
{
    let bars = bars_of_both(alloc, strips, counted, other, reach)?;
    let masks = masks_of(alloc, strips)?;
    match first_clash(alloc, bars, masks.as_slice())? {
        Some(clash) => Ok(Some(Pair {
            first: clash.first.tag,
            second: clash.second.tag,
        })),
        None => Ok(None),
    }
}

// The counted strips and those of the other mask as bars that are grown by the reach, tagged by their numbers.
fn bars_of_both(
    alloc: Global,
    strips: &[Strip],
    counted: &Counted<'_>,
    other: u32,
    reach: &Reach,
) -> Result<Vec<Bar>, OutOfMemory>
    requires few { length strips.now < 2 ^ 32 }
    requires lowers { length counted.now.lowers.now ≡ length strips.now }
    ensures { IfOk result (λ bars. AreBarsBefore (TakesPart counted.now other (map placed strips.now)) reach.now (map placed strips.now) (length strips.now) bars.items) }
{
    let mut bars = Vec::new(alloc);
    for i in 0..strips.len() {
        if takes_part(strips, i, counted, other) {
            bars.push(Bar {
                at: grown(&strips[i].at, reach),
                tag: i as u32,
            })?;
        }
    }
    Ok(bars)
}

// Whether strip i counts or is of the other mask.
fn takes_part(strips: &[Strip], i: usize, counted: &Counted<'_>, other: u32) -> bool
    requires strip { i < length strips.now }
    requires lowers { length counted.now.lowers.now ≡ length strips.now }
    ensures { MatchBool result (TakesPart counted.now other (map placed strips.now) i) (¬ TakesPart counted.now other (map placed strips.now) i) }
{
    if strips[i].mask == other {
        return true;
    }
    counts(strips, i, counted)
}

// The number of the mask of each strip.
fn masks_of(alloc: Global, strips: &[Strip]) -> Result<Vec<u32>, OutOfMemory>
    ensures { IfOk result (λ masks. masks.items ≡ map (λ strip. strip.mask) strips.now) }
{
    let mut masks = Vec::new(alloc);
    for strip in strips {
        masks.push(strip.mask)?;
    }
    Ok(masks)
}

// The same two strips, the counted one first.
fn counted_first(
    strips: &[Strip],
    counted: &Counted<'_>,
    other: u32,
    reach: &Reach,
    pair: &Pair,
) -> Pair
    requires different { counted.now.mask ≢ other }
    requires pair { AreNearPair counted.now other reach.now (map placed strips.now) pair.now.first pair.now.second }
    ensures { AreNearAcross counted.now other reach.now (map placed strips.now) result.first result.second }
{
    if strips[pair.first as usize].mask == other {
        Pair {
            first: pair.second,
            second: pair.first,
        }
    } else {
        *pair
    }
}
