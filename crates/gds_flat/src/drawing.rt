//! The layout that items draw, and the first item that lies too far out.
ghost use Rattle.std.specs.Prelude.{◌≡◌, ◌<◌, [], length, replicate, All, IfOk, MatchBool, MatchOption};
ghost use Rattle.gds_flat.specs.Items.{DrawingIsNear, DrawingIsFar, IsNear, FirstFar, marks_of};
ghost use Rattle.gds_flat.specs.Drawn.{drawing_of, pieces_in};
ghost use Rattle.gds_flat.specs.Drawings.{AreOnMasks, Draws};

use crate::item::{Drawn, Item};
use crate::limits::FARTHEST;
use rt_base::{List, OutOfMemory, Rect};
use rt_layout::{Label, Layout};
use std::alloc::Global;

// The offset of the first item that lies too far out.
pub(crate) fn first_far(items: &[Item]) -> Option<u64>
    ensures { MatchOption result (All (λ p. DrawingIsNear p.drawing) (pieces_in items.now)) (FirstFar (pieces_in items.now)) }
{
    for item in items {
        if !is_near(&item.drawn) {
            return Some(item.offset);
        }
    }
    None
}

// Whether the coordinates of what an item draws are near.
fn is_near(drawn: &Drawn) -> bool
    ensures { MatchBool result (DrawingIsNear (drawing_of drawn.now)) (DrawingIsFar (drawing_of drawn.now)) }
{
    match drawn {
        Drawn::Area(rect) => rect_is_near(rect),
        Drawn::Note { at, .. } => point_is_near(at),
    }
}

// Whether the sides of a rectangle are near.
fn rect_is_near(rect: &Rect) -> bool
    ensures { MatchBool result (IsNear rect.now.x1 × IsNear rect.now.x2 × IsNear rect.now.y1 × IsNear rect.now.y2)
        (¬ (IsNear rect.now.x1 × IsNear rect.now.x2 × IsNear rect.now.y1 × IsNear rect.now.y2)) }
{
    number_is_near(&rect.x1)
        && number_is_near(&rect.x2)
        && number_is_near(&rect.y1)
        && number_is_near(&rect.y2)
}

// Whether both coordinates of a point are near.
fn point_is_near(at: &(i64, i64)) -> bool
    ensures { MatchBool result (IsNear at.now.0 × IsNear at.now.1) (¬ (IsNear at.now.0 × IsNear at.now.1)) }
{
    number_is_near(&at.0) && number_is_near(&at.1)
}

// Whether a coordinate is near.
fn number_is_near(number: &i64) -> bool
    ensures { MatchBool result (IsNear number.now) (¬ IsNear number.now) }
{
    number.unsigned_abs() <= FARTHEST
}

// The layout that the items draw on so many masks.
pub(crate) fn drawn(alloc: Global, items: &[Item], count: usize) -> Result<Layout, OutOfMemory>
    requires { All (λ i. i.mask < count) items.now }
    ensures { IfOk result (Draws (pieces_in items.now) count) }
{
    let masks = rects(alloc, items, count)?;
    let labels = labels(alloc, items)?;
    Ok(Layout { masks, labels })
}

// The rectangles of the items, each on its mask.
fn rects(alloc: Global, items: &[Item], count: usize) -> Result<List<List<Rect>>, OutOfMemory>
    requires { All (λ i. i.mask < count) items.now }
    ensures { IfOk result (AreOnMasks items.now count) }
{
    let mut masks = blank(alloc, count)?;
    for item in items {
        if let Drawn::Area(rect) = &item.drawn {
            masks[item.mask as usize].push(*rect)?;
        }
    }
    Ok(List::of(masks))
}

// So many masks without rectangles.
fn blank(alloc: Global, count: usize) -> Result<Vec<List<Rect>>, OutOfMemory>
    ensures { IfOk result (λ masks. masks.items ≡ replicate count []) }
{
    let mut masks = Vec::new(alloc);
    for _ in 0..count {
        masks.push(List::new(alloc))?;
    }
    Ok(masks)
}

// The labels among the items, in order.
fn labels(alloc: Global, items: &[Item]) -> Result<List<Label>, OutOfMemory>
    ensures { IfOk result (λ labels. labels ≡ marks_of (pieces_in items.now)) }
{
    let mut labels = List::new(alloc);
    for item in items {
        if let Drawn::Note { at, text } = &item.drawn {
            labels.push(Label {
                mask: item.mask,
                at: *at,
                text: text.copy(alloc)?,
            })?;
        }
    }
    Ok(labels)
}
