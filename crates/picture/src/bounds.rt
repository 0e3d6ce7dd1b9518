//! What a flat cell reaches over.

use rt_base::Rect;
use rt_layout::{Label, Layout};

/// The least rectangle, in database units, around all that is drawn. It may have no width and no height, as around one label.
#[derive(Clone, Copy, Drop)]
pub struct Bounds {
    /// The left side.
    pub left: i64,
    /// The lower side.
    pub bottom: i64,
    /// The right side.
    pub right: i64,
    /// The upper side.
    pub top: i64,
}

/// The bounds of the layout's rectangles and of its labels' points, or None where it has neither.
pub fn bounds_of(layout: &Layout) -> Option<Bounds> {
    let mut bounds = None;
    for mask in layout.masks.as_slice() {
        for rectangle in mask.as_slice() {
            bounds = Some(joined(bounds, of_rectangle(rectangle)));
        }
    }
    for label in layout.labels.as_slice() {
        bounds = Some(joined(bounds, of_label(label)));
    }
    bounds
}

// The bounds of a rectangle.
fn of_rectangle(rectangle: &Rect) -> Bounds {
    Bounds {
        left: rectangle.x1,
        bottom: rectangle.y1,
        right: rectangle.x2,
        top: rectangle.y2,
    }
}

// The bounds of a label's point.
fn of_label(label: &Label) -> Bounds {
    let (x, y) = label.at;
    Bounds {
        left: x,
        bottom: y,
        right: x,
        top: y,
    }
}

// The bounds of what lies in the one or in the other.
fn joined(before: Option<Bounds>, more: Bounds) -> Bounds {
    let Some(old) = before else {
        return more;
    };
    Bounds {
        left: old.left.min(more.left),
        bottom: old.bottom.min(more.bottom),
        right: old.right.max(more.right),
        top: old.top.max(more.top),
    }
}
