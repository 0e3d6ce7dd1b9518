//! The limits of the numbers of a certificate.

/// The greatest magnitude of an extent, of a place, and of what a branch divides at, in target steps. (This project's own.)
pub const PLACE_LIMIT: i128 = 1_000_000_000_000;

/// The most that a combination is divided by. (This project's own.)
pub const DIVISOR_LIMIT: i128 = 1_000_000_000_000_000_000;

/// The greatest magnitude of a multiplier. (This project's own.)
pub const TIMES_LIMIT: i128 = 10_000_000_000_000_000_000;

/// The most shares of a node. (This project's own.)
pub const SHARES_LIMIT: i128 = 100_000;

/// The greatest number of a strip, so that how many there are is below 2^32. (This project's own.)
pub const LAST_STRIP: i128 = 4_294_967_294;
