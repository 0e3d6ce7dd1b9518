//! The limits of sizes files. Code and definitions share them.

/// The greatest magnitude of the axis of a mirror, in database units. (This project's own.)
pub const AXIS_LIMIT: i64 = 2_000_000_000;

/// The most pivots that a search may make. (This project's own.)
pub const PIVOT_LIMIT: u64 = 100_000;

/// How many pivots a search may make where the file doesn't tell. (This project's own.)
pub const PIVOTS: u64 = 20_000;
