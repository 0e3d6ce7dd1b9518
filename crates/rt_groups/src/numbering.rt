//! Numbers of groups in the order in which they appear first.
ghost use Rattle.std.specs.Prelude.{◌<◌, ◌^◌, length, IfOk, All};
ghost use Rattle.rt_groups.specs.Groups.{AreNumberedBy};
ghost use Rattle.rt_groups.specs.Entries.{AreUnknown, IsNumberOf};

use rt_base::{List, OutOfMemory};
use std::alloc::Global;

/// A number for each item, of which each has an entry below the bound: items have one number exactly where they have one entry, and the numbers are 0, 1,
/// 2, .. as each entry appears first. It takes memory for as many entries as the bound. The one error is a want of memory. (This project's own.)
pub fn numbered(alloc: Global, groups: &[u32], bound: usize) -> Result<List<u32>, OutOfMemory>
    requires few { length groups.now < 2 ^ 32 }
    requires within { All (λ entry. entry < bound) groups.now }
    ensures { IfOk result (λ numbers. AreNumberedBy groups.now numbers) }
{
    let mut known = unknown(alloc, bound)?;
    let numbers = number_all(alloc, groups, known.as_mut_slice())?;
    Ok(List::of(numbers))
}

// No number for any entry.
fn unknown(alloc: Global, bound: usize) -> Result<Vec<Option<u32>>, OutOfMemory>
    ensures { IfOk result (λ known. AreUnknown bound known.items) }
{
    let known = vec![in alloc; None; bound]?;
    Ok(known)
}

// The numbers of the items in order.
fn number_all(
    alloc: Global,
    groups: &[u32],
    known: &mut [Option<u32>],
) -> Result<Vec<u32>, OutOfMemory>
    requires few { length groups.now < 2 ^ 32 }
    requires within { All (λ entry. entry < length known.old) groups.now }
    requires unknown { AreUnknown (length known.old) known.old }
    ensures { IfOk result (λ numbers. AreNumberedBy groups.now numbers.items) }
{
    let mut numbers = Vec::new(alloc);
    let mut next = 0;
    for entry in groups {
        let number = number_of(*entry, next, known);
        numbers.push(number)?;
        if number == next {
            next += 1;
        }
    }
    Ok(numbers)
}

// The number of the entry: the one that it has, or else the next one, which it has from now on.
fn number_of(entry: u32, next: u32, known: &mut [Option<u32>]) -> u32
    requires { entry < length known.old }
    ensures { IsNumberOf entry next known.old known.new result }
{
    let number = known[entry as usize].unwrap_or(next);
    known[entry as usize] = Some(number);
    number
}
