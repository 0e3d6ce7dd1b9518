//! What a sizes file asks for, as values: the cell, its mirror, and the sizes of its devices.
use rt_base::{List, Text};

/// The length and the width that a device is to have, in steps of the target table, from 1. (This project's own.)
#[derive(Clone, Copy, Debug, PartialEq, Eq, Drop)]
pub struct Wish {
    /// How long its channel is, from the source to the drain.
    pub length: i64,
    /// How wide its channel is.
    pub width: i64,
}

/// Whether the drawn cell is mirrored about an upright axis. (This project's own.)
#[derive(Clone, Copy, Debug, PartialEq, Eq, Drop)]
pub enum Mirror {
    /// It isn't.
    None,
    /// It is, about the axis that is found.
    Find,
    /// It is, about the upright line at half of this number, in database units of the source.
    At(i64),
}

/// What a sizes file asks for. (This project's own.)
#[derive(Drop)]
pub struct Sizes {
    /// The name of the structure that is moved, not empty.
    pub cell: Text,
    /// Its mirror.
    pub mirror: Mirror,
    /// How many pivots a search may make: 1 to 100,000.
    pub pivots: u64,
    /// The sizes of kinds of devices, each by the kind's number in the target table, each once.
    pub kinds: List<(u32, Wish)>,
    /// The sizes of single devices, each by the device's number, each once.
    pub devices: List<(u32, Wish)>,
}
