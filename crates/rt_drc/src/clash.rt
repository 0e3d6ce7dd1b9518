//! Bars of different groups that share a cell.
ghost use Rattle.std.specs.Prelude.{All, AllPairs, IfOk, MatchOption, MatchBool, ◌≤ℤ◌};
ghost use Rattle.rt_drc.specs.Clashing.{HasGroup, AreGrouped, AreGroupedAcross, ClashAcross, DoClash, IsStrange, IsFamiliar};

use rt_base::OutOfMemory;
use rt_sweep::{Bar, Sweep};
use std::alloc::Global;

/// Two bars.
#[derive(Clone, Copy, Drop)]
pub(crate) struct Clash {
    /// One of them.
    pub(crate) first: Bar,
    /// The other one.
    pub(crate) second: Bar,
}

/// Two of the bars that share a cell and are of different groups, if there are any. A bar with tag t is of the group `groups[t]`.
/// The one error is a want of memory.
pub(crate) fn first_clash(
    alloc: Global,
    bars: Vec<Bar>,
    groups: &[u32],
) -> Result<Option<Clash>, OutOfMemory>
    requires { All (HasGroup groups.now) bars.items }
    ensures { IfOk result (λ found. MatchOption found (AreGrouped groups.now bars.items) (DoClash groups.now bars.items)) }
{
    let mut sweep = Sweep::new(alloc, bars)?;
    while let Some(_slab) = sweep.next_slab()? {
        if let Some(clash) = clash_across(sweep.active(), groups) {
            return Ok(Some(clash));
        }
    }
    Ok(None)
}

// Two of the bars, which stand in order of their left ends, that have a column in common and are of different groups, if there are any.
fn clash_across(bars: &[Bar], groups: &[u32]) -> Option<Clash>
    requires groups { All (HasGroup groups.now) bars.now }
    requires in_order { AllPairs (λ a b. a.at.x1 ≤ℤ b.at.x1) bars.now }
    ensures { MatchOption result (AreGroupedAcross groups.now bars.now) (ClashAcross groups.now bars.now) }
{
    let mut farthest = 0;
    for i in 0..bars.len() {
        let first = &bars[farthest];
        let second = &bars[i];
        if is_strange(first, second, groups) {
            return Some(Clash {
                first: *first,
                second: *second,
            });
        }
        if first.at.x2 <= second.at.x2 {
            farthest = i;
        }
    }
    None
}

// Whether the second bar begins before the first one ends, and is of another group.
fn is_strange(first: &Bar, second: &Bar, groups: &[u32]) -> bool
    requires first { HasGroup groups.now first.now }
    requires second { HasGroup groups.now second.now }
    ensures { MatchBool result (IsStrange groups.now first.now second.now) (IsFamiliar groups.now first.now second.now) }
{
    second.at.x1 < first.at.x2 && groups[first.tag as usize] != groups[second.tag as usize]
}
