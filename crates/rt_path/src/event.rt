//! Raises of values, and what they are made of. Places are numbers: 0 is the origin, 1 the extent, then come the low sides of the strips, and
//! then their high sides.
use rt_rows::Name;

/// A row of differences between places: the value at `head` is at least the value at `tail` plus `by`.
#[derive(Clone, Copy, Drop)]
pub struct Step {
    /// The row's name.
    pub name: Name,
    /// The place that the row counts from.
    pub tail: usize,
    /// The place whose value the row bounds from below.
    pub head: usize,
    /// How far beyond.
    pub by: i64,
}

/// A raise of the value at a place by a row.
#[derive(Clone, Copy, Drop)]
pub struct Event {
    /// The place.
    pub place: usize,
    /// The number of the row.
    pub step: usize,
    /// The number of the event from which the row raised it.
    pub before: usize,
    /// The new value.
    pub value: i64,
    /// How many raises lead from the origin to it.
    pub length: usize,
}

/// The last event of a place.
#[derive(Clone, Copy, Drop)]
pub struct Last {
    /// The number of the event.
    pub event: usize,
    /// Its value.
    pub value: i64,
    /// How many raises lead to it.
    pub length: usize,
}
