//! The limits of flattening, which code and definitions share. (This project's own.)

/// The most structures of a chain, each of which places the next.
pub const DEEPEST: usize = 64;

/// The most rectangles and labels of a flat layout.
pub const MOST_ITEMS: u64 = 50_000;

/// How far from an axis a coordinate may lie, in database units.
pub const FARTHEST: u64 = 1_000_000_000;
