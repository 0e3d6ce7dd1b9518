//! What an element gives by itself.
ghost use Rattle.std.specs.Prelude.{◌≡◌, ◌++◌, ◌<◌, ◌≤◌, ◌^◌, length, map, Some, All, OnOk};
ghost use Rattle.gds_slabs.specs.Polygon.{IsClosed, IsSlanted};
ghost use Rattle.gds_slabs.specs.Path.{IsPathWidth};
ghost use Rattle.gds_slabs.specs.declared.path.PathEnd.{PathEnd as End};
ghost use Rattle.gds_flat.specs.Elements.{Plain, end_of};
ghost use Rattle.gds_flat.specs.Items.{AreSlabPieces, ArePathPieces, GivesOn, Own};
ghost use Rattle.gds_flat.specs.Drawn.{IsDrawable};
ghost use Rattle.gds_flat.specs.Building.{CanBeDrawn, Appends, AreNearAnd, IsNotePiece, area_item};

use crate::ends::taken_end;
use crate::item::{Drawn, Item};
use crate::masks::mask_of;
use gds_slabs::{path_rects, rectangle_around, slabs};
use gds_stream::Element;
use rt_base::{List, OutOfMemory, Point, Rect, Text};
use rt_tech::Tech;
use std::alloc::Global;

// Appends what an element gives by itself: nothing if it has no mask.
pub(crate) fn push_own(
    alloc: Global,
    items: &mut List<Item>,
    tech: &Tech,
    element: &Element,
) -> Result<(), OutOfMemory>
    requires drawn { CanBeDrawn tech.now element.now }
    requires masks { length tech.now.masks < 2 ^ 32 }
    ensures { OnOk result (Appends (AreNearAnd (Own tech.now element.now)) items.old items.new) }
{
    match mask_of(tech, element) {
        Some(mask) => push_on(alloc, items, element, mask as u32),
        None => Ok(()),
    }
}

// Appends what an element gives on the mask.
fn push_on(
    alloc: Global,
    items: &mut List<Item>,
    element: &Element,
    mask: u32,
) -> Result<(), OutOfMemory>
    requires plain { Plain element.now }
    requires drawable { IsDrawable element.now }
    ensures { OnOk result (Appends (AreNearAnd (GivesOn element.now mask)) items.old items.new) }
{
    match element {
        Element::Boundary { offset, points, .. } => {
            push_polygon(alloc, items, *offset, mask, points.as_slice())
        }
        Element::Path {
            offset,
            pathtype,
            width,
            points,
            ..
        } => push_path(
            alloc,
            items,
            *offset,
            mask,
            pathtype,
            width,
            points.as_slice(),
        ),
        Element::Label {
            offset,
            at,
            text,
            ..
        } => push_note(alloc, items, *offset, mask, at, text),
        _ => Ok(()),
    }
}

// Appends the rectangles of a polygon.
fn push_polygon(
    alloc: Global,
    items: &mut List<Item>,
    offset: u64,
    mask: u32,
    points: &[Point],
) -> Result<(), OutOfMemory>
    requires closed { IsClosed points.now }
    requires straight { ¬ IsSlanted points.now }
    ensures { OnOk result (Appends (AreNearAnd (AreSlabPieces offset mask points.now)) items.old items.new) }
{
    match rectangle_around(points) {
        Some(rect) => items.push(Item {
            offset,
            mask,
            drawn: Drawn::Area(rect),
        }),
        None => push_slabs(alloc, items, offset, mask, points),
    }
}

// Appends the rectangles of a polygon, row by row.
fn push_slabs(
    alloc: Global,
    items: &mut List<Item>,
    offset: u64,
    mask: u32,
    points: &[Point],
) -> Result<(), OutOfMemory>
    requires closed { IsClosed points.now }
    requires straight { ¬ IsSlanted points.now }
    ensures { OnOk result (Appends (AreNearAnd (AreSlabPieces offset mask points.now)) items.old items.new) }
{
    let rects = slabs(alloc, points)?;
    push_areas(items, offset, mask, rects.as_slice())
}

// Appends the rectangles of a path.
fn push_path(
    alloc: Global,
    items: &mut List<Item>,
    offset: u64,
    mask: u32,
    pathtype: &i16,
    width: &i32,
    points: &[Point],
) -> Result<(), OutOfMemory>
    requires pathtype { (end : End) × (end_of pathtype.now ≡ Some end) }
    requires width { IsPathWidth width.now }
    requires points { 2 ≤ length points.now }
    ensures { OnOk result (Appends (AreNearAnd (ArePathPieces offset mask pathtype.now width.now points.now)) items.old items.new) }
{
    let rects = path_rects(alloc, points, *width, taken_end(pathtype))?;
    push_areas(items, offset, mask, rects.as_slice())
}

// Appends rectangles.
fn push_areas(
    items: &mut List<Item>,
    offset: u64,
    mask: u32,
    rects: &[Rect],
) -> Result<(), OutOfMemory>
    ensures { OnOk result (items.new ≡ items.old ++ map (area_item offset mask) rects.now) }
{
    for rect in rects {
        items.push(Item {
            offset,
            mask,
            drawn: Drawn::Area(*rect),
        })?;
    }
    Ok(())
}

// Appends a label.
fn push_note(
    alloc: Global,
    items: &mut List<Item>,
    offset: u64,
    mask: u32,
    at: &Point,
    text: &Text,
) -> Result<(), OutOfMemory>
    ensures { OnOk result (Appends (AreNearAnd (IsNotePiece offset mask at.now text.now)) items.old items.new) }
{
    items.push(Item {
        offset,
        mask,
        drawn: Drawn::Note {
            at: (i64::from(at.x), i64::from(at.y)),
            text: text.copy(alloc)?,
        },
    })
}
