//! The limits of rule tables. Code and definitions share them.

/// The most database units that a step may be.
pub const GRID_LIMIT: i64 = 100;

/// The most masks of a table.
pub const MASK_LIMIT: usize = 64;

/// The most kinds of actives of a table.
pub const KIND_LIMIT: usize = 64;

/// The most bytes of a name of a mask or of a kind.
pub const NAME_LIMIT: usize = 32;

/// The largest layer, data type or text type that a stream can have. (GDSII Release 6.)
pub const LAYER_LIMIT: i64 = 32_767;

/// The least layer that an ignored pair can have. (GDSII Release 6: a number of 16 bits.)
pub const LEAST_LAYER: i16 = -32_768;

/// The largest width, space, side, reach or distance that a table can ask for.
pub const LENGTH_LIMIT: i64 = 1_000_000;
