//! Rectangles, cells, points and orientations, and how far two rectangles lie apart.
ghost use Rattle.std.specs.Prelude.{◌≡◌, ◌<◌, ◌≤◌, ◌^◌, ◌-◌, ℤ, pos, negsuc, ◌≤ℤ◌, ◌<ℤ◌};
ghost use Rattle.rt_cells.specs.Line.{gap_of};

/// A rectangle of cells: the columns from `x1` up to, and without, `x2`, and the rows from `y1` up to, and without, `y2`.
/// It has a cell at least. Units are those of where it stands: source database units, target steps or
/// target database units. Its sides have magnitudes of at most 2^62 - 1: a difference of two fits an i64, and a rectangle whose
/// coordinates were handed in, which have magnitudes of at most 2^61, can grow by any number of a table. (This project's own.)
#[derive(Clone, Copy, Debug, PartialEq, Eq, Drop)]
pub struct Rect {
    /// The first column.
    pub x1: i64,
    /// The first row.
    pub y1: i64,
    /// The column after the last one.
    pub x2: i64,
    /// The row after the last one.
    pub y2: i64,
    ghost across: { x1 <ℤ x2 },
    ghost upwards: { y1 <ℤ y2 },
    ghost from_left: { negsuc (2 ^ 62 - 2) ≤ℤ x1 },
    ghost to_right: { x2 ≤ℤ pos (2 ^ 62 - 1) },
    ghost from_bottom: { negsuc (2 ^ 62 - 2) ≤ℤ y1 },
    ghost to_top: { y2 ≤ℤ pos (2 ^ 62 - 1) },
}

/// A cell: the unit square whose lower left corner is (`x`, `y`).
#[derive(Clone, Copy, Debug, PartialEq, Eq, Drop)]
pub struct Cell {
    /// Its column.
    pub x: i64,
    /// Its row.
    pub y: i64,
}

/// A point of a stream, in database units of the stream.
#[derive(Clone, Copy, Debug, PartialEq, Eq, Drop)]
pub struct Point {
    /// Across.
    pub x: i32,
    /// Upwards.
    pub y: i32,
}

/// How a reference turns what it places: a reflection about the x axis first, or none, and then counterclockwise
/// quarters of a turn, 0 to 3. (GDSII Release 6: STRANS and ANGLE.)
#[derive(Clone, Copy, Debug, PartialEq, Eq, Drop)]
pub struct Orient {
    /// Whether it is reflected about the x axis.
    pub reflect: bool,
    /// The quarters, 0 to 3.
    pub quarters: u8,
    ghost below_a_turn: { quarters < 4 },
}

/// The two axes: positions are found across first, and then upwards. For mirrors, not used yet.
#[derive(Clone, Copy, Drop)]
pub enum Axis {
    /// From left to right.
    Across,
    /// From bottom to top.
    Upwards,
}

/// How many columns lie strictly between two rectangles, 0 where they share a column or adjoin.
#[tactic(auto, using(crate::proofs::Gaps::gaps))]
pub fn gap_x(a: &Rect, b: &Rect) -> i64
    ensures { result ≡ gap_of a.now.x1 a.now.x2 b.now.x1 b.now.x2 }
{
    if a.x2 < b.x1 {
        b.x1 - a.x2
    } else if b.x2 < a.x1 {
        a.x1 - b.x2
    } else {
        0
    }
}

/// How many rows lie strictly between two rectangles, 0 where they share a row or adjoin.
#[tactic(auto, using(crate::proofs::Gaps::gaps))]
pub fn gap_y(a: &Rect, b: &Rect) -> i64
    ensures { result ≡ gap_of a.now.y1 a.now.y2 b.now.y1 b.now.y2 }
{
    if a.y2 < b.y1 {
        b.y1 - a.y2
    } else if b.y2 < a.y1 {
        a.y1 - b.y2
    } else {
        0
    }
}
