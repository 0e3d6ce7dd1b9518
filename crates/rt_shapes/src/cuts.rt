//! The shapes of the cuts of a layout.
ghost use Rattle.std.specs.Prelude.{◌≡◌, ◌<◌, ◌^◌, length, map, All, IfOk, IfErr, OnOk};
ghost use Rattle.rt_layout.specs.Covering.{MaskCovers};
ghost use Rattle.rt_tech.specs.Tech.{mask_count};
ghost use Rattle.rt_strips.specs.Channels.{IsStripsOf};
ghost use Rattle.rt_strips.specs.Placed.{placed};
ghost use Rattle.rt_view.specs.Shapes.{IsWiring, HasSoundCuts, IsCutErrorOf};
ghost use Rattle.rt_view.specs.Lowers.{AreLowersOf};

use crate::bare::bare_table;
use crate::bent::check_bent;
use crate::sides::{check_upper, lower_masks};
use rt_base::List;
use rt_layout::Layout;
use rt_strips::Strips;
use rt_tech::Tech;
use rt_view::NetError;
use std::alloc::Global;

/// For each strip of a cut of the layout the number of the one lower mask that its piece lies in, and 0 for every other strip, where each piece of a cut
/// is a rectangle, lies in its upper mask and in exactly one of its lower masks. Else the first shape of these that fails: `CutShape`, `CutUpper` or
/// `CutLower`, with the least rectangle around a piece that has it; `OutOfMemory` where memory is wanted. (This project's own.)
pub fn cut_shapes(
    alloc: Global,
    layout: &Layout,
    strips: &Strips,
    tech: &Tech,
) -> Result<List<u32>, NetError>
    requires wiring { All IsWiring tech.now.masks }
    requires masks { length layout.now.masks ≡ mask_count tech.now }
    requires strips { IsStripsOf layout.now tech.now strips.now }
    requires few { length strips.now.list < 2 ^ 30 }
    ensures lowers { IfOk result (AreLowersOf tech.now (MaskCovers layout.now) (map placed strips.now.list)) }
    ensures sound { OnOk result (HasSoundCuts tech.now (MaskCovers layout.now)) }
    ensures refused { IfErr result (IsCutErrorOf layout.now tech.now) }
{
    let list = strips.list.as_slice();
    check_bent(alloc, list, tech)?;
    let table = bare_table(alloc, list, strips.masks)?;
    check_upper(list, tech, table.as_slice())?;
    lower_masks(alloc, list, tech, table.as_slice())
}
