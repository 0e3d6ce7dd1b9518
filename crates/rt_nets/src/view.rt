//! The view of a layout.
ghost use Rattle.std.specs.Prelude.{◌≡◌, ◌<◌, ◌^◌, length, replicate, All, IfOk, IfErr};
ghost use Rattle.rt_strips.specs.Channels.{IsStripsOf};
ghost use Rattle.rt_tech.specs.Tech.{mask_count};
ghost use Rattle.rt_shapes.specs.Touching.{ArePlain};
ghost use Rattle.rt_view.specs.Shapes.{IsWiring, IsShapeErrorOf};
ghost use Rattle.rt_view.specs.View.{IsViewOf};

use rt_base::{List, OutOfMemory};
use rt_layout::{Label, Layout};
use rt_shapes::sound_shapes;
use rt_strips::Strips;
use rt_tech::Tech;
use rt_view::{NetError, View};
use std::alloc::Global;

/// The view of a layout whose masks are metals and cuts, by its strips; or the first shape that a sound source doesn't have, in the order `CutShape`,
/// `CutUpper`, `CutLower`, `StrayLabel`, with the least rectangle around the piece that shows it, of a label the square of side 1 whose lower left
/// corner is its point. `OutOfMemory` comes for want of memory alone. (This project's own.)
pub fn view_of(
    alloc: Global,
    layout: &Layout,
    strips: Strips,
    tech: &Tech,
) -> Result<View, NetError>
    requires wiring { All IsWiring tech.now.masks }
    requires masks { length layout.now.masks ≡ mask_count tech.now }
    requires strips { IsStripsOf layout.now tech.now strips }
    requires few { length strips.list < 2 ^ 30 }
    requires points { ArePlain layout.now.labels }
    ensures view { IfOk result (IsViewOf layout.now tech.now) }
    ensures same { IfOk result (λ view. view.strips ≡ strips) }
    ensures refused { IfErr result (IsShapeErrorOf layout.now tech.now) }
{
    let lowers = sound_shapes(alloc, layout, &strips, tech)?;
    let labels = copied(alloc, layout.labels.as_slice())?;
    let kinds = zeros(alloc, strips.list.as_slice().len())?;
    Ok(View {
        strips,
        channels: List::new(alloc),
        lowers,
        kinds,
        labels,
    })
}

// A list of so many zeros.
fn zeros(alloc: Global, count: usize) -> Result<List<u32>, OutOfMemory>
    ensures { IfOk result (λ list. list ≡ replicate count 0) }
{
    let mut list = List::new(alloc);
    for _number in 0..count {
        list.push(0)?;
    }
    Ok(list)
}

// The same labels again.
fn copied(alloc: Global, labels: &[Label]) -> Result<List<Label>, OutOfMemory>
    ensures { IfOk result (λ list. list ≡ labels.now) }
{
    let mut list = List::new(alloc);
    for label in labels {
        list.push(copy(alloc, label)?)?;
    }
    Ok(list)
}

// The same label again.
fn copy(alloc: Global, label: &Label) -> Result<Label, OutOfMemory>
    ensures { IfOk result (λ same. same ≡ label.now) }
{
    let text = label.text.copy(alloc)?;
    Ok(Label {
        mask: label.mask,
        at: label.at,
        text,
    })
}
