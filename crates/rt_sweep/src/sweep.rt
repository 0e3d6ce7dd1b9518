//! The sweep over rectangles from the lowest row to the highest.
ghost use Rattle.std.specs.Prelude.{◌≡◌, IfOk, OnOk, OnErr, MatchOption, IsPermutation};
ghost use Rattle.rt_sweep.specs.Rows.{AreUpwards};

use crate::bar::Bar;
use crate::rows::{bottom_at, greatest_top};
use crate::step::{Slab, step_up};
use rt_base::OutOfMemory;
use std::alloc::Global;
use std::marker::Model;
use std::mem;

/// A sweep over bars. Contracts see its bars, how high it has come, and the bars that cross the slab that it passed last.
#[derive(Drop)]
pub struct Sweep {
    // by bottom, then by left
    bars: Vec<Bar>,
    // the first bar that hasn't begun
    next: usize,
    height: i64,
    highest: i64,
    active: Vec<Bar>,
    // where the next active bars are written
    spare: Vec<Bar>,
}

impl Model for Sweep {
    ghost use Rattle.rt_sweep.specs.Slabs.{Passing};
    ghost use Rattle.rt_sweep.specs.Rows.{IsSwept};

    ghost Value = { Passing };

    ghost view = { λ s. record { bars = s.bars.items; height = s.height; highest = s.highest; active = s.active.items } };

    ghost invariant = { λ s. IsSwept s.bars.items s.next s.height s.highest s.active.items };
}

impl Sweep {
    ghost use Rattle.rt_sweep.specs.Slabs.{AreBelow, IsAtStart, PassesSlab};

    /// A sweep of these bars, below all of them. The one error is a want of memory.
    pub fn new(alloc: Global, bars: Vec<Bar>) -> Result<Sweep, OutOfMemory>
        ensures { IfOk result (IsAtStart bars.items) }
    {
        let mut bars = bars;
        sort_upwards(&mut bars)?;
        let height = bottom_at(bars.as_slice(), 0, 0);
        let highest = greatest_top(bars.as_slice(), height);
        Ok(Sweep {
            bars,
            next: 0,
            height,
            highest,
            active: Vec::new(alloc),
            spare: Vec::new(alloc),
        })
    }

    /// Goes on to the next slab above, over which the same bars are active on each row; None where no bar is left. The one error is a want of memory,
    /// after which the sweep is as before.
    pub fn next_slab(&mut self) -> Result<Option<Slab>, OutOfMemory>
        ensures slab { IfOk result (λ found. MatchOption found
            (AreBelow self.old.bars self.old.height)
            (λ slab. PassesSlab self.old slab.bottom slab.top self.new)) }
        ensures same { OnErr result (self.new ≡ self.old) }
    {
        let step = step_up(
            self.bars.as_slice(),
            self.next,
            self.height,
            self.highest,
            self.active.as_slice(),
            &mut self.spare,
        )?;
        let Some(step) = step else {
            return Ok(None);
        };
        mem::swap(&mut self.active, &mut self.spare);
        self.next = step.end;
        self.height = step.slab.top;
        Ok(Some(step.slab))
    }

    /// The bars that cross the slab that was passed last, in order of their left ends.
    pub fn active(&self) -> &[Bar]
        ensures { result.now ≡ self.now.active }
    {
        self.active.as_slice()
    }
}

// Puts the bars in order of bottom, then left.
fn sort_upwards(bars: &mut Vec<Bar>) -> Result<(), OutOfMemory>
    ensures same { IsPermutation bars.old.items bars.new.items }
    ensures sorted { OnOk result (AreUpwards bars.new.items) }
{
    bars.sort_by_key(|bar| (bar.at.y1, bar.at.x1))?;
    Ok(())
}
