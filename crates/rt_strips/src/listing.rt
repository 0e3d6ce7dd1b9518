//! Strips, and why a layout has none that are told.
use rt_base::{List, Rect};
use thiserror::Error;

/// A strip: a rectangle of one mask, in source database units. (This project's own.)
#[derive(Clone, Copy, Drop)]
pub struct Strip {
    /// The mask's number in the tables, from 0; of a channel the number of masks.
    pub mask: u32,
    /// The cells of the source that it covers.
    pub at: Rect,
}

/// The strips of a layout, numbered from 0. (This project's own.)
#[derive(Drop)]
pub struct Strips {
    /// The strips, in order of mask, then bottom, then left. Channels stand behind all masks.
    pub list: List<Strip>,
    /// How many masks the table has.
    pub masks: u32,
}

/// Why the strips of a layout aren't told.
#[derive(Debug, Drop, Error)]
pub enum StripError {
    /// There are more strips than are taken.
    #[error("{count} strips")]
    TooMany {
        /// How many there are; 2^64 - 1 where there are more.
        count: u64,
    },
    /// There was no memory for them.
    #[error("out of memory")]
    OutOfMemory,
}
