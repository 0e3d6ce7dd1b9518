//! What an item is: a rectangle or a label on a mask.
use rt_base::{Rect, Text};

// What an item draws, in source database units.
#[derive(Drop)]
pub(crate) enum Drawn {
    // A rectangle.
    Area(Rect),
    // A text at a point.
    Note { at: (i64, i64), text: Text },
}

// A rectangle or a label on a mask, with the place of the first byte of the element that gives it.
#[derive(Drop)]
pub(crate) struct Item {
    pub offset: u64,
    pub mask: u32,
    pub drawn: Drawn,
}
