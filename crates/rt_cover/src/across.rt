//! The columns of one slab: how far the strips reach there, and which rectangles they leave bare.
ghost use Rattle.std.specs.Prelude.{◌≡◌, ◌<◌, ◌^◌, length};
ghost use Rattle.std.specs.Int.{int_max};
ghost use Rattle.rt_sweep.specs.Rows.{AreAcross};
ghost use Rattle.rt_cover.specs.Across.{EndRuns, IsReachUpTo, IsReachAt, Takes, IsNoted, AreLookedAt};

use rt_base::Cell;
use rt_sweep::{Bar, Slab};

/// How far the bars of strips reach that stand before a place of a list.
#[derive(Clone, Copy, Drop)]
pub(crate) struct Reach {
    /// The place.
    pub(crate) next: usize,
    /// The column at which the last one of them ends; the least number where there is none.
    pub(crate) right: i64,
}

/// Notes a bare cell for each bar of the slab that the bars of strips don't cover there: bar with tag t at place t. Those with a tag that isn't below
/// the count are of strips; they end where runs of them end, and all stand in order of their left ends. It takes no memory.
pub(crate) fn look_across(active: &[Bar], count: u32, slab: &Slab, found: &mut [Option<Cell>])
    requires across { AreAcross active.now }
    requires runs { EndRuns active.now count }
    ensures { AreLookedAt active.now count slab.now.bottom (length active.now) found.old found.new }
{
    let mut reach = Reach {
        next: 0,
        right: i64::MIN,
    };
    for bar in active {
        reach_to(active, count, bar, &mut reach);
        note(bar, &reach, slab, found);
    }
}

// Takes the bars that begin at the bar's left end or to the left of it.
fn reach_to(active: &[Bar], count: u32, bar: &Bar, reach: &mut Reach)
    requires { IsReachUpTo active.now count bar.now.at.x1 reach.old.next reach.old.right }
    ensures { IsReachAt active.now count bar.now.at.x1 reach.new.next reach.new.right }
{
    while reach.next < active.len() && active[reach.next].at.x1 <= bar.at.x1 {
        take(&active[reach.next], count, reach);
    }
}

// Goes on behind the bar; if it is that of a strip, its right end counts.
fn take(bar: &Bar, count: u32, reach: &mut Reach)
    requires { reach.old.next < 2 ^ 63 }
    ensures { Takes bar.now count reach.old.next reach.old.right reach.new.next reach.new.right }
{
    if bar.tag >= count && reach.right < bar.at.x2 {
        reach.right = bar.at.x2;
    }
    reach.next += 1;
}

// Notes a bare cell for the bar, if the reach ends before it does.
fn note(bar: &Bar, reach: &Reach, slab: &Slab, found: &mut [Option<Cell>])
    ensures { IsNoted bar.now reach.now.right slab.now.bottom found.old found.new }
{
    let number = bar.tag as usize;
    if number >= found.len() || bar.at.x2 <= reach.right {
        return;
    }
    found[number] = Some(bare_cell(bar, reach, slab));
}

// The cell in the slab's lowest row, in the first column of the bar that lies at the reach or to the right of it.
fn bare_cell(bar: &Bar, reach: &Reach, slab: &Slab) -> Cell
    ensures column { result.x ≡ int_max reach.now.right bar.now.at.x1 }
    ensures row { result.y ≡ slab.now.bottom }
{
    if reach.right < bar.at.x1 {
        Cell {
            x: bar.at.x1,
            y: slab.bottom,
        }
    } else {
        Cell {
            x: reach.right,
            y: slab.bottom,
        }
    }
}
