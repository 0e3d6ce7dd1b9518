//! A sweep along the line that finds the pairs.
ghost use Rattle.std.specs.Prelude.{◌≡◌, ◌<◌, length, IfOk, OnOk, MatchBool};
ghost use Rattle.rt_near.specs.Near.{IsInterval};
ghost use Rattle.rt_near.specs.Entries.{entry_at, IsUpTo, AreInOrder, AreIntervals};
ghost use Rattle.rt_near.specs.Pairs.{numbers_of, ComesWithin, IsClose, AreAdded, AreClosePairs};

use crate::entry::Entry;
use rt_base::{List, OutOfMemory};
use std::alloc::Global;

// The numbers of each two entries that are close.
pub(crate) fn pairs_of(alloc: Global, entries: &[Entry]) -> Result<List<(u32, u32)>, OutOfMemory>
    requires order { AreInOrder entries.now }
    requires intervals { AreIntervals entries.now }
    ensures { IfOk result (AreClosePairs entries.now) }
{
    let mut pairs = List::new(alloc);
    for place in 0..entries.len() {
        add_close(&mut pairs, entries, place)?;
    }
    Ok(pairs)
}

// Adds the pairs of the entry at that place with later ones that are close to it.
fn add_close(
    pairs: &mut List<(u32, u32)>,
    entries: &[Entry],
    place: usize,
) -> Result<(), OutOfMemory>
    requires there { place < length entries.now }
    requires order { AreInOrder entries.now }
    requires intervals { AreIntervals entries.now }
    ensures { OnOk result (AreAdded entries.now place (length entries.now) pairs.old pairs.new) }
{
    let mut next = place + 1;
    while next < entries.len() && is_close(&entries[place], &entries[next]) {
        pairs.push(numbers(&entries[place], &entries[next]))?;
        next += 1;
    }
    Ok(())
}

// The numbers of two entries, the smaller one first.
fn numbers(first: &Entry, second: &Entry) -> (u32, u32)
    ensures { result ≡ numbers_of first.now second.now }
{
    if first.number < second.number {
        (first.number, second.number)
    } else {
        (second.number, first.number)
    }
}

// Whether a later entry is of the first one's group, and fewer places than the group's reach lie between them.
fn is_close(first: &Entry, second: &Entry) -> bool
    requires order { IsUpTo first.now second.now }
    requires second { IsInterval second.now.at }
    ensures { MatchBool result (IsClose first.now second.now) (¬ IsClose first.now second.now) }
{
    first.at.group == second.at.group && comes_within(first, second)
}

// Whether the group has a reach above 0, and the second entry begins before that many places lie between them.
fn comes_within(first: &Entry, second: &Entry) -> bool
    ensures { MatchBool result (ComesWithin first.now second.now) (¬ ComesWithin first.now second.now) }
{
    if first.reach <= 0 {
        return false;
    }
    i128::from(second.at.low) - i128::from(first.at.high) < i128::from(first.reach)
}
