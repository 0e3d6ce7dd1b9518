//! The gaps of the strips over a column: which strip is seen from which.
ghost use Rattle.std.specs.Prelude.{◌≡◌, ◌<◌, length, map, MatchBool, OnOk};
ghost use Rattle.rt_strips.specs.Placed.{placed};
ghost use Rattle.rt_columns.specs.Adding.{Adds};
ghost use Rattle.rt_columns.specs.Bars.{AreBarsOf, IsOn, IsFirstAbove, IsGapName, IsGapFrom, IsGapAmong};

use crate::rows::{lies_above, lower_top};
use rt_base::{List, OutOfMemory};
use rt_rows::Name;
use rt_strips::{Strips, touching};
use rt_sweep::Bar;

/// Adds the names of the gaps between two strips of which the upper one is seen from the lower one and doesn't stand on it. The bars are those
/// of the strips over a column, in order of their bottoms. The one error is a want of memory.
pub(crate) fn add_gaps(
    strips: &Strips,
    over: &[Bar],
    names: &mut List<Name>,
) -> Result<(), OutOfMemory>
    requires bars { AreBarsOf (map placed strips.now.list) over.now }
    ensures { OnOk result (Adds (IsGapAmong (map placed strips.now.list) over.now) names.old names.new) }
{
    for lower in 0..over.len() {
        add_gaps_from(strips, over, lower, names)?;
    }
    Ok(())
}

// The same for one lower strip.
fn add_gaps_from(
    strips: &Strips,
    over: &[Bar],
    lower: usize,
    names: &mut List<Name>,
) -> Result<(), OutOfMemory>
    requires bars { AreBarsOf (map placed strips.now.list) over.now }
    requires place { lower < length over.now }
    ensures { OnOk result (Adds (IsGapFrom (map placed strips.now.list) over.now lower) names.old names.new) }
{
    let first = first_above(over, lower);
    if first < over.len() {
        add_gaps_onward(strips, over, lower, first, names)?;
    }
    Ok(())
}

// The first place behind another whose strip lies above that one's.
fn first_above(over: &[Bar], lower: usize) -> usize
    requires place { lower < length over.now }
    ensures { IsFirstAbove over.now lower result }
{
    let mut first = lower + 1;
    while first < over.len() && !lies_above(over, lower, first) {
        first += 1;
    }
    first
}

// The names of the gaps above one strip, where the place of the first one above it is known. Each strip from there on is seen that begins below the
// lowest top of those before it.
fn add_gaps_onward(
    strips: &Strips,
    over: &[Bar],
    lower: usize,
    first: usize,
    names: &mut List<Name>,
) -> Result<(), OutOfMemory>
    requires bars { AreBarsOf (map placed strips.now.list) over.now }
    requires place { lower < length over.now }
    requires first { IsFirstAbove over.now lower first }
    requires some { first < length over.now }
    ensures { OnOk result (Adds (IsGapFrom (map placed strips.now.list) over.now lower) names.old names.new) }
{
    let mut least = first;
    let mut upper = first;
    while upper < over.len() && !lies_above(over, least, upper) {
        add_gap(strips, over, lower, upper, names)?;
        least = lower_top(over, least, upper);
        upper += 1;
    }
    Ok(())
}

// Adds the name of the gap between two strips, of which the upper one doesn't stand on the lower one.
fn add_gap(
    strips: &Strips,
    over: &[Bar],
    lower: usize,
    upper: usize,
    names: &mut List<Name>,
) -> Result<(), OutOfMemory>
    requires bars { AreBarsOf (map placed strips.now.list) over.now }
    requires lower { lower < length over.now }
    requires upper { upper < length over.now }
    ensures { OnOk result (Adds (IsGapName (map placed strips.now.list) over.now lower upper) names.old names.new) }
{
    if !is_on(strips, over, lower, upper) {
        let first = over[lower].tag;
        let second = over[upper].tag;
        names.push(Name::Gap(first, second))?;
    }
    Ok(())
}

/// Whether the strip at the upper place stands on the one at the lower place.
pub(crate) fn is_on(strips: &Strips, over: &[Bar], lower: usize, upper: usize) -> bool
    requires bars { AreBarsOf (map placed strips.now.list) over.now }
    requires lower { lower < length over.now }
    requires upper { upper < length over.now }
    ensures { MatchBool result (IsOn (map placed strips.now.list) over.now lower upper) (¬ IsOn (map placed strips.now.list) over.now lower upper) }
{
    touching(strips, over[lower].tag, over[upper].tag)
}
