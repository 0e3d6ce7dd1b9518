//! Bars: rectangles with a number.
use rt_base::Rect;

/// A rectangle with a number of its owner's choice.
#[derive(Clone, Copy, Drop)]
pub struct Bar {
    /// The rectangle.
    pub at: Rect,
    /// The number.
    pub tag: u32,
}
