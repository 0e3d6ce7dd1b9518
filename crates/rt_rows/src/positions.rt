//! Positions of strips.
use rt_base::List;

/// The most that an extent of positions may be, across and upwards, in target steps. (This project's own.)
pub const EXTENT_LIMIT: i64 = 20_000_000;

/// Positions of strips, in target steps: one entry a strip in each list.
#[derive(Drop)]
pub struct Positions {
    /// The left sides.
    pub l: List<i64>,
    /// The right sides.
    pub r: List<i64>,
    /// The bottoms.
    pub b: List<i64>,
    /// The tops.
    pub t: List<i64>,
    /// The extent across.
    pub width: i64,
    /// The extent upwards.
    pub height: i64,
    /// Twice the place of the mirror axis, where there are mirrors.
    pub axis: Option<i64>,
}
