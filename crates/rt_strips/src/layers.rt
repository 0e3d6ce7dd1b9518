//! The strips of a layout, mask by mask, and then the channels.
ghost use Rattle.std.specs.Prelude.{◌≡◌, ◌<◌, ◌≤◌, ◌^◌, suc, length, IfOk, IfErr};
ghost use Rattle.rt_layout.specs.Covering.{MaskCovers};
ghost use Rattle.rt_tech.specs.Tech.{mask_count};
ghost use Rattle.rt_strips.specs.Channels.{IsStripCell, IsStripsOf, RefusesStrips};
ghost use Rattle.rt_strips.specs.Tallies.{AreTallied};

use crate::channels::add_channels;
use crate::listing::{StripError, Strips};
use crate::tally::Tally;
use rt_base::{List, OutOfMemory};
use rt_layout::Layout;
use rt_tech::Tech;
use std::alloc::Global;

/// The strips of a layout: of each mask of the table, of any role, and then the channels, the pieces of cells that both gate and active cover,
/// where they are rectangles; in order of mask, then bottom, then left, in the units of the layout. `TooMany` comes exactly
/// where they are more than the limit, with their exact count, and `OutOfMemory` where there is no memory. Of each mask no more strips than
/// the limit are held at once; those of the cells that both gate and active cover are all held while the channels among them are told.
/// (This project's own.)
pub fn strips_of(
    alloc: Global,
    layout: &Layout,
    tech: &Tech,
    limit: u32,
) -> Result<Strips, StripError>
    requires masks { length layout.now.masks ≡ mask_count tech.now }
    requires few_masks { mask_count tech.now < 2 ^ 32 }
    ensures strips { IfOk result (IsStripsOf layout.now tech.now) }
    ensures few { IfOk result (λ strips. length strips.list ≤ limit) }
    ensures refused { IfErr result (RefusesStrips layout.now tech.now limit) }
{
    let Ok(tally) = tally_of(alloc, layout, tech, limit as usize) else {
        return Err(StripError::OutOfMemory);
    };
    if tally.count > u64::from(limit) {
        return Err(StripError::TooMany { count: tally.count });
    }
    Ok(Strips {
        list: List::of(tally.list),
        masks: tech.masks.as_slice().len() as u32,
    })
}

// The strips of all masks, and then the channels that are rectangles. The one error is a want of memory.
fn tally_of(alloc: Global, layout: &Layout, tech: &Tech, most: usize) -> Result<Tally, OutOfMemory>
    requires masks { length layout.now.masks ≡ mask_count tech.now }
    requires few_masks { mask_count tech.now < 2 ^ 32 }
    ensures { IfOk result (AreTallied (IsStripCell layout.now tech.now) (suc (mask_count tech.now)) most) }
{
    let mut tally = tally_masks(alloc, layout, most)?;
    add_channels(alloc, layout, tech, most, &mut tally)?;
    Ok(tally)
}

// The strips of all masks. The one error is a want of memory.
fn tally_masks(alloc: Global, layout: &Layout, most: usize) -> Result<Tally, OutOfMemory>
    requires { length layout.now.masks < 2 ^ 32 }
    ensures { IfOk result (AreTallied (MaskCovers layout.now) (length layout.now.masks) most) }
{
    let mut tally = Tally {
        list: Vec::new(alloc),
        count: 0,
    };
    let masks = layout.masks.as_slice();
    for mask in 0..masks.len() {
        tally.add_mask(alloc, masks[mask].as_slice(), mask as u32, most)?;
    }
    Ok(tally)
}
