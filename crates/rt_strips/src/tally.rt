//! The strips so far, of which no more than so many are kept.
ghost use Rattle.std.specs.Prelude.{◌≡◌, ◌≤◌, ◌++◌, IfOk, OnOk, length, map, take};
ghost use Rattle.rt_base.specs.Plane.{area};
ghost use Rattle.rt_cells.specs.Rectangles.{Covers};
ghost use Rattle.rt_strips.specs.Placed.{placed};
ghost use Rattle.rt_strips.specs.Tallies.{at_mask, IsTallyOf, AddsStrips, AddsOne};

use crate::listing::Strip;
use crate::one_mask::strips_within;
use rt_base::{OutOfMemory, Rect};
use std::alloc::Global;

/// The first strips so far, and how many there are.
#[derive(Drop)]
pub struct Tally {
    /// The strips that are kept.
    pub list: Vec<Strip>,
    /// How many strips there are; 2^64 - 1 where there are more.
    pub count: u64,
}

impl Tally {
    // Adds the strips of what the rectangles cover. The one error is a want of memory.
    pub(crate) fn add_mask(
        &mut self,
        alloc: Global,
        rects: &[Rect],
        mask: u32,
        most: usize,
    ) -> Result<(), OutOfMemory>
        ensures { OnOk result (AddsStrips (Covers (map area rects.now)) mask most self.old self.new) }
    {
        let found = strips_within(alloc, rects, most)?;
        keep(&mut self.list, found.strips.as_slice(), mask, most)?;
        self.count = self.count.saturating_add(found.count);
        Ok(())
    }

    // Adds the strip. The one error is a want of memory.
    pub(crate) fn add(&mut self, strip: Strip, most: usize) -> Result<(), OutOfMemory>
        ensures { OnOk result (AddsOne (placed strip) most self.old self.new) }
    {
        if self.list.len() < most {
            self.list.push(strip)?;
        }
        self.count = self.count.saturating_add(1);
        Ok(())
    }
}

// Keeps strips of a mask, as long as there are fewer than `most`.
fn keep(list: &mut Vec<Strip>, strips: &[Rect], mask: u32, most: usize) -> Result<(), OutOfMemory>
    ensures { OnOk result (length list.old.items ≤ most
        → map placed list.new.items ≡ take most (map placed list.old.items ++ map (at_mask mask) (map area strips.now))) }
{
    for at in strips {
        if list.len() < most {
            list.push(Strip { mask, at: *at })?;
        }
    }
    Ok(())
}
