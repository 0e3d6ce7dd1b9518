//! The runs of the strips over a column: the chains that can't go on at either end.
ghost use Rattle.std.specs.Prelude.{◌≡◌, ℕ, ◌<◌, ◌≤◌, length, map, All, MatchBool, OnOk};
ghost use Rattle.rt_strips.specs.Placed.{placed};
ghost use Rattle.rt_columns.specs.Adding.{Adds};
ghost use Rattle.rt_sweep.specs.Rows.{AreAcross};
ghost use Rattle.rt_columns.specs.Bars.{AreBarsOf, IsHighest, IsLowest, IsStoodOn, IsStanding, IsOnOne, ArePassed, GoesUpTo, AreReached, IsReachedThere, IsTaken, IsRunTo, IsRunFrom, IsRunAt, IsRunAmong};

use crate::gaps::is_on;
use crate::rows::ends_below;
use rt_base::{List, OutOfMemory};
use rt_rows::Name;
use rt_strips::Strips;
use rt_sweep::Bar;

/// Adds the names of the runs of the chains that can't go on at either end. The bars are those of the strips over a column, in order of their
/// bottoms; the buffer is for places. The one error is a want of memory.
pub(crate) fn add_runs(
    strips: &Strips,
    over: &[Bar],
    reached: &mut Vec<usize>,
    names: &mut List<Name>,
) -> Result<(), OutOfMemory>
    requires bars { AreBarsOf (map placed strips.now.list) over.now }
    ensures { OnOk result (Adds (IsRunAmong (map placed strips.now.list) over.now) names.old names.new) }
{
    let mut from = 0;
    for lowest in 0..over.len() {
        from = first_not_passed(over, from, lowest);
        add_runs_at(strips, over, from, lowest, reached, names)?;
    }
    Ok(())
}

// The first place from one on whose strip doesn't end below the one at another place.
fn first_not_passed(over: &[Bar], from: usize, place: usize) -> usize
    requires bars { AreAcross over.now }
    requires place { place < length over.now }
    requires passed { ArePassed over.now from place }
    ensures { ArePassed over.now result place }
{
    let mut first = from;
    while first < place && ends_below(over, first, place) {
        first += 1;
    }
    first
}

// The runs from one strip, if it stands on nothing. Those at the places before `from` end below it.
fn add_runs_at(
    strips: &Strips,
    over: &[Bar],
    from: usize,
    place: usize,
    reached: &mut Vec<usize>,
    names: &mut List<Name>,
) -> Result<(), OutOfMemory>
    requires bars { AreBarsOf (map placed strips.now.list) over.now }
    requires place { place < length over.now }
    requires passed { ArePassed over.now from place }
    ensures { OnOk result (Adds (IsRunAt (map placed strips.now.list) over.now place) names.old names.new) }
{
    if stands(strips, over, from, place) {
        return Ok(());
    }
    climb(strips, over, place, reached)?;
    add_runs_from(strips, over, place, reached.as_slice(), names)?;
    Ok(())
}

// Whether the strip at the place stands on another. Those at the places before `from` end below it.
fn stands(strips: &Strips, over: &[Bar], from: usize, place: usize) -> bool
    requires bars { AreBarsOf (map placed strips.now.list) over.now }
    requires place { place < length over.now }
    requires passed { ArePassed over.now from place }
    ensures { MatchBool result (IsStanding (map placed strips.now.list) over.now place) (IsLowest (map placed strips.now.list) over.now place) }
{
    for below in from..place {
        if is_on(strips, over, below, place) {
            return true;
        }
    }
    false
}

// Whether another strip stands on the one at the place.
fn is_stood_on(strips: &Strips, over: &[Bar], place: usize) -> bool
    requires bars { AreBarsOf (map placed strips.now.list) over.now }
    requires place { place < length over.now }
    ensures { MatchBool result (IsStoodOn (map placed strips.now.list) over.now place) (IsHighest (map placed strips.now.list) over.now place) }
{
    let mut above = place + 1;
    while above < over.len() && !ends_below(over, place, above) {
        if is_on(strips, over, place, above) {
            return true;
        }
        above += 1;
    }
    false
}

// Writes the places that are reached from a strip, itself and those of chains that begin with it, in the place of what the buffer held.
fn climb(
    strips: &Strips,
    over: &[Bar],
    place: usize,
    reached: &mut Vec<usize>,
) -> Result<(), OutOfMemory>
    requires bars { AreBarsOf (map placed strips.now.list) over.now }
    requires place { place < length over.now }
    ensures { OnOk result (AreReached (map placed strips.now.list) over.now place reached.new.items) }
{
    reached.clear();
    reached.push(place)?;
    let mut next = place + 1;
    while next < over.len() && goes_up_to(over, reached.as_slice(), next) {
        take(strips, over, next, reached)?;
        next += 1;
    }
    Ok(())
}

// Whether one of the places has a strip that ends where the one at another place begins, or above.
fn goes_up_to(over: &[Bar], places: &[usize], next: usize) -> bool
    requires places { All (λ place. place < length over.now) places.now }
    requires next { next < length over.now }
    ensures { MatchBool result (GoesUpTo over.now places.now next) (¬ GoesUpTo over.now places.now next) }
{
    for place in places {
        if !ends_below(over, *place, next) {
            return true;
        }
    }
    false
}

// Whether the strip at a place stands on one of others.
fn stands_on_one(strips: &Strips, over: &[Bar], places: &[usize], next: usize) -> bool
    requires bars { AreBarsOf (map placed strips.now.list) over.now }
    requires places { All (λ place. place < length over.now) places.now }
    requires next { next < length over.now }
    ensures { MatchBool result (IsOnOne (map placed strips.now.list) over.now places.now next) (¬ IsOnOne (map placed strips.now.list) over.now places.now next) }
{
    for place in places {
        if is_on(strips, over, *place, next) {
            return true;
        }
    }
    false
}

// Appends a place, if its strip stands on one of those that are reached.
fn take(
    strips: &Strips,
    over: &[Bar],
    next: usize,
    reached: &mut Vec<usize>,
) -> Result<(), OutOfMemory>
    requires bars { AreBarsOf (map placed strips.now.list) over.now }
    requires places { All (λ place. place < length over.now) reached.old.items }
    requires next { next < length over.now }
    ensures { OnOk result (IsTaken (map placed strips.now.list) over.now next reached.old.items reached.new.items) }
{
    if stands_on_one(strips, over, reached.as_slice(), next) {
        reached.push(next)?;
    }
    Ok(())
}

// The names of the runs from a strip to those that are reached from it and on which nothing stands.
fn add_runs_from(
    strips: &Strips,
    over: &[Bar],
    lowest: usize,
    reached: &[usize],
    names: &mut List<Name>,
) -> Result<(), OutOfMemory>
    requires bars { AreBarsOf (map placed strips.now.list) over.now }
    requires place { lowest < length over.now }
    requires reached { AreReached (map placed strips.now.list) over.now lowest reached.now }
    ensures { OnOk result (Adds (IsRunFrom (map placed strips.now.list) over.now lowest) names.old names.new) }
{
    for highest in reached {
        add_run(strips, over, lowest, *highest, names)?;
    }
    Ok(())
}

// Adds the name of the run between two strips, if nothing stands on the upper one.
fn add_run(
    strips: &Strips,
    over: &[Bar],
    lowest: usize,
    highest: usize,
    names: &mut List<Name>,
) -> Result<(), OutOfMemory>
    requires bars { AreBarsOf (map placed strips.now.list) over.now }
    requires lowest { lowest < length over.now }
    requires highest { highest < length over.now }
    ensures { OnOk result (Adds (IsRunTo (map placed strips.now.list) over.now lowest highest) names.old names.new) }
{
    if !is_stood_on(strips, over, highest) {
        let first = over[lowest].tag;
        let second = over[highest].tag;
        names.push(Name::Run(first, second))?;
    }
    Ok(())
}
