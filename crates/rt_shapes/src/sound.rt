//! The shapes of a layout, all of them in order.
ghost use Rattle.std.specs.Prelude.{◌≡◌, ◌<◌, ◌^◌, length, map, All, IfOk, IfErr, OnOk};
ghost use Rattle.rt_layout.specs.Covering.{MaskCovers};
ghost use Rattle.rt_tech.specs.Tech.{mask_count};
ghost use Rattle.rt_strips.specs.Channels.{IsStripsOf};
ghost use Rattle.rt_strips.specs.Placed.{placed};
ghost use Rattle.rt_view.specs.Shapes.{IsWiring, HasSoundShapes, IsShapeErrorOf};
ghost use Rattle.rt_view.specs.Lowers.{AreLowersOf};
ghost use Rattle.rt_shapes.specs.Touching.{ArePlain};

use crate::cuts::cut_shapes;
use crate::labels::check_labels;
use rt_base::List;
use rt_layout::Layout;
use rt_strips::Strips;
use rt_tech::Tech;
use rt_view::NetError;
use std::alloc::Global;

/// For each strip of a cut of the layout the number of the one lower mask that its piece lies in, and 0 for every other strip, where the layout has the
/// shapes of a sound source. Else the first shape that it hasn't, `CutShape`, `CutUpper`, `CutLower` or `StrayLabel`, with the rectangle that shows it;
/// `OutOfMemory` where memory is wanted. (This project's own.)
pub fn sound_shapes(
    alloc: Global,
    layout: &Layout,
    strips: &Strips,
    tech: &Tech,
) -> Result<List<u32>, NetError>
    requires wiring { All IsWiring tech.now.masks }
    requires masks { length layout.now.masks ≡ mask_count tech.now }
    requires strips { IsStripsOf layout.now tech.now strips.now }
    requires few { length strips.now.list < 2 ^ 30 }
    requires points { ArePlain layout.now.labels }
    ensures lowers { IfOk result (AreLowersOf tech.now (MaskCovers layout.now) (map placed strips.now.list)) }
    ensures sound { OnOk result (HasSoundShapes tech.now (MaskCovers layout.now) layout.now.labels) }
    ensures refused { IfErr result (IsShapeErrorOf layout.now tech.now) }
{
    let lowers = cut_shapes(alloc, layout, strips, tech)?;
    check_labels(layout, strips, tech)?;
    Ok(lowers)
}
