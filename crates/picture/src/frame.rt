//! Where a drawing lies in its picture, and how large letters and lines are there.
//!
//! A picture counts in units of its own, from its upper left corner, to the right and downwards: one database unit is 1, 10, 100 or
//! 1,000 of them, so that letters and lines of a small cell are whole numbers too. Coordinates of a flat cell have magnitudes of at
//! most 1,000,000,000, so no sum or product here comes near the end of its type, where it would stand still.

use crate::bounds::Bounds;

// How many units the longer side of a drawing has at least, unless its database unit has 1,000.
const LEAST_SIDE: u64 = 400;

// How many units a database unit has at most.
const MOST_UNITS: u64 = 1_000;

// How many letters, one over the other, are as high as the longer side of a drawing.
const LETTERS: u64 = 28;

// The height of a letter where nothing is drawn.
const PLAIN_LETTER: u64 = 16;

/// Where a drawing lies in its picture.
#[derive(Clone, Copy, Drop)]
pub struct Frame {
    // What is drawn, in database units.
    bounds: Bounds,
    // How many units a database unit has.
    units: u64,
    /// The height of a letter, 1 at least. It is the margin around the drawing as well.
    pub letter: u64,
}

/// The frame of a drawing with these bounds.
pub fn frame_around(bounds: Option<Bounds>) -> Frame {
    let Some(bounds) = bounds else {
        return Frame {
            bounds: Bounds {
                left: 0,
                bottom: 0,
                right: 0,
                top: 0,
            },
            units: 1,
            letter: PLAIN_LETTER,
        };
    };
    let longer = longer_side(&bounds);
    let units = units_for(longer);
    let letter = (longer.saturating_mul(units) / LETTERS).max(1);
    Frame {
        bounds,
        units,
        letter,
    }
}

// The longer side of the bounds, 1 at least.
fn longer_side(bounds: &Bounds) -> u64 {
    let width = bounds.right.abs_diff(bounds.left);
    let height = bounds.top.abs_diff(bounds.bottom);
    width.max(height).max(1)
}

// How many units a database unit has where the longer side is so long.
fn units_for(longer: u64) -> u64 {
    for units in [1, 10, 100] {
        if LEAST_SIDE <= longer.saturating_mul(units) {
            return units;
        }
    }
    MOST_UNITS
}

impl Frame {
    /// The units of a length in database units.
    pub fn length(&self, length: u64) -> u64 {
        length.saturating_mul(self.units)
    }

    /// The place, from the left, of a coordinate across.
    pub fn across(&self, x: i64) -> u64 {
        let beside = x.abs_diff(self.bounds.left);
        self.length(beside).saturating_add(self.letter)
    }

    /// The place, from the top, of a coordinate upwards.
    pub fn down(&self, y: i64) -> u64 {
        let below = self.bounds.top.abs_diff(y);
        self.length(below).saturating_add(self.letter)
    }

    /// The width of the drawing in database units.
    pub fn width(&self) -> u64 {
        self.bounds.right.abs_diff(self.bounds.left)
    }

    /// The place of the drawing's right side.
    pub fn right(&self) -> u64 {
        self.across(self.bounds.right)
    }

    /// The place of the drawing's lower side.
    pub fn bottom(&self) -> u64 {
        self.down(self.bounds.bottom)
    }

    /// The height of a label's letter, 1 at least.
    pub fn small_letter(&self) -> u64 {
        (self.letter.saturating_mul(3) / 4).max(1)
    }

    /// The thickness of a line, 1 at least.
    pub fn line(&self) -> u64 {
        (self.letter / 12).max(1)
    }
}
