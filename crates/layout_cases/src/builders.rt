//! What the cases are made of: texts, a table of two masks, and layouts.
use rt_base::{List, Rect, Text};
use rt_layout::Layout;
use rt_tech::{Mask, Role, Tech};
use std::alloc::Global;
use std::test::Fail;

/// The bytes as a text, if they are one.
pub fn text(alloc: Global, bytes: &[u8]) -> Result<Option<Text>, Fail> {
    Ok(Text::of(List::of(Vec::from_slice(alloc, bytes)?)))
}

// A mask whose name is one letter, on the layer of the letter's code.
fn mask(alloc: Global, letter: u8, role: Role) -> Result<Mask, Fail> {
    let mut name = List::new(alloc);
    name.push(letter)?;
    Ok(Mask {
        name: Text::of(name).ok_or("not a text")?,
        role,
        layer: i16::from(letter),
        datatype: 0,
        note: None,
        width: 4,
        space: 4,
        upper: 0,
        lowers: List::new(alloc),
    })
}

/// A table of a gate and an active, named a and b.
pub fn table(alloc: Global) -> Result<Tech, Fail> {
    let gate = mask(alloc, b'a', Role::Gate)?;
    let active = mask(alloc, b'b', Role::Active)?;
    let mut masks = List::new(alloc);
    masks.push(gate)?;
    masks.push(active)?;
    Ok(Tech {
        grid: 1,
        units: [2; 16],
        masks,
        encloses: List::new(alloc),
        gates: None,
        aparts: List::new(alloc),
        kinds: List::new(alloc),
        ignored: List::new(alloc),
        drop_unlisted: false,
    })
}

/// A rectangle of a case: its mask, and its left, bottom, right and top.
pub type Placing = (u32, [i32; 4]);

/// The rectangle, if it has a cell.
pub fn rect(placing: &Placing) -> Option<Rect> {
    let [left, bottom, right, top] = placing.1;
    if left < right && bottom < top {
        Some(Rect {
            x1: i64::from(left),
            y1: i64::from(bottom),
            x2: i64::from(right),
            y2: i64::from(top),
        })
    } else {
        None
    }
}

// The rectangles of a mask.
fn rects(alloc: Global, placings: &[Placing], mask: u32) -> Result<List<Rect>, Fail> {
    let mut rects = List::new(alloc);
    for placing in placings {
        if placing.0 == mask {
            rects.push(rect(placing).ok_or("an empty rectangle")?)?;
        }
    }
    Ok(rects)
}

/// A layout of two masks and no label.
pub fn layout(alloc: Global, placings: &[Placing]) -> Result<Layout, Fail> {
    let first = rects(alloc, placings, 0)?;
    let second = rects(alloc, placings, 1)?;
    let mut masks = List::new(alloc);
    masks.push(first)?;
    masks.push(second)?;
    Ok(Layout {
        masks,
        labels: List::new(alloc),
    })
}
