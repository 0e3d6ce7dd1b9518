//! The ranks of the sides of a drawing.
ghost use Rattle.std.specs.Prelude.{◌≡◌, ◌+◌, ◌<◌, ◌≤◌, ◌^◌, length, IfOk};
ghost use Rattle.rt_columns.specs.Ranking.{AreRising, IsRankIn, AreSides, AreRisingSides, AreRanksOf};

use rt_base::OutOfMemory;
use std::alloc::Global;

/// The first so many numbers of both lists, in order. The one error is a want of memory.
pub(crate) fn sorted_sides(
    alloc: Global,
    lefts: &[i64],
    rights: &[i64],
    count: usize,
) -> Result<Vec<i64>, OutOfMemory>
    requires few { count < 2 ^ 32 }
    requires lefts { count ≤ length lefts.now }
    requires rights { count ≤ length rights.now }
    ensures { IfOk result (λ sorted. AreRisingSides count lefts.now rights.now sorted.items) }
{
    let mut sides = all_sides(alloc, lefts, rights, count)?;
    sides.sort()?;
    Ok(sides)
}

// The first so many numbers of both lists.
fn all_sides(
    alloc: Global,
    lefts: &[i64],
    rights: &[i64],
    count: usize,
) -> Result<Vec<i64>, OutOfMemory>
    requires few { count < 2 ^ 32 }
    requires lefts { count ≤ length lefts.now }
    requires rights { count ≤ length rights.now }
    ensures { IfOk result (λ sides. AreSides count lefts.now rights.now sides.items) }
{
    let mut sides = Vec::new(alloc);
    for number in 0..count {
        sides.push(lefts[number])?;
        sides.push(rights[number])?;
    }
    Ok(sides)
}

/// The ranks of the first so many numbers. The one error is a want of memory.
pub(crate) fn ranks(
    alloc: Global,
    sorted: &[i64],
    numbers: &[i64],
    count: usize,
) -> Result<Vec<i64>, OutOfMemory>
    requires few { length sorted.now < 2 ^ 33 }
    requires rising { AreRising sorted.now }
    requires numbers { count ≤ length numbers.now }
    ensures { IfOk result (λ ranks. AreRanksOf sorted.now count numbers.now ranks.items) }
{
    let mut ranks = Vec::new(alloc);
    for number in 0..count {
        let rank = rank(sorted, &numbers[number]);
        ranks.push(rank as i64)?;
    }
    Ok(ranks)
}

// How many of the numbers, which rise, are less than one.
fn rank(sorted: &[i64], number: &i64) -> usize
    requires { AreRising sorted.now }
    ensures { IsRankIn sorted.now number.now result }
{
    let mut low = 0;
    let mut high = sorted.len();
    while low < high {
        let middle = low + (high - low) / 2;
        if sorted[middle] < *number {
            low = middle + 1;
        } else {
            high = middle;
        }
    }
    low
}
