//! Intervals with their numbers, in order along the line.
ghost use Rattle.std.specs.Prelude.{◌≡◌, ◌<◌, ◌^◌, length, OnOk, IfOk, IsPermutation};
ghost use Rattle.rt_near.specs.Entries.{entry_of, AreNumbered, AreSortedOf, AreInOrder};

use crate::near::Sides;
use rt_base::OutOfMemory;
use std::alloc::Global;

/// An interval with its number.
#[derive(Clone, Copy, Drop)]
pub struct Entry {
    /// The interval.
    pub at: Sides,
    /// Its group's reach, 0 where the group has none.
    pub reach: i64,
    /// Its number.
    pub number: u32,
}

// The intervals with their numbers, in order of group, then of their first places.
pub(crate) fn sorted_entries(
    alloc: Global,
    sides: &[Sides],
    reaches: &[i64],
) -> Result<Vec<Entry>, OutOfMemory>
    requires few { length sides.now < 2 ^ 32 }
    ensures { IfOk result (λ entries. AreSortedOf sides.now reaches.now entries.items) }
{
    let mut entries = numbered(alloc, sides, reaches)?;
    sort_along(&mut entries)?;
    Ok(entries)
}

// Puts the entries in order of group, then of their first places.
fn sort_along(entries: &mut Vec<Entry>) -> Result<(), OutOfMemory>
    ensures same { IsPermutation entries.old.items entries.new.items }
    ensures sorted { OnOk result (AreInOrder entries.new.items) }
{
    entries.sort_by_key(|entry| (entry.at.group, entry.at.low))?;
    Ok(())
}

// The intervals with their numbers.
fn numbered(alloc: Global, sides: &[Sides], reaches: &[i64]) -> Result<Vec<Entry>, OutOfMemory>
    requires few { length sides.now < 2 ^ 32 }
    ensures { IfOk result (λ entries. AreNumbered sides.now reaches.now entries.items) }
{
    let mut entries = Vec::new(alloc);
    for i in 0..sides.len() {
        entries.push(numbered_entry(&sides[i], reaches, i as u32))?;
    }
    Ok(entries)
}

// The interval with its number and its group's reach.
fn numbered_entry(side: &Sides, reaches: &[i64], number: u32) -> Entry
    ensures { result ≡ entry_of side.now reaches.now number }
{
    let reach = match reaches.get(side.group as usize) {
        Some(reach) => *reach,
        None => 0,
    };
    Entry {
        at: *side,
        reach,
        number,
    }
}
