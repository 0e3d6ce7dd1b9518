//! Why a structure isn't flattened.
ghost use Rattle.std.specs.Prelude.{◌≡◌};
ghost use Rattle.gds_flat.specs.declared.error.FlatError.TheVariants.{OutOfMemory as Nothing};
ghost use Rattle.gds_flat.specs.declared.error.Stop.TheVariants.{NoMemory as Ended};
ghost use Rattle.gds_flat.specs.Refused.{refusal_of, refusal_to};

use rt_base::{List, OutOfMemory, Text};
use std::alloc::AllocFailed;
use thiserror::Error;

/// What this project doesn't take in an element, in the order in which an element is tested. (This project's own.)
#[derive(Clone, Copy, Debug, PartialEq, Eq, Drop)]
pub enum Odd {
    /// A path's type is neither 0 nor 2.
    PathType,
    /// A path's width is 0 or odd.
    PathWidth,
    /// A box.
    BoxElement,
    /// A reference's magnification isn't 1.
    Magnification,
    /// A reference's angle isn't a whole number of quarter turns.
    Angle,
    /// A reference's magnification or angle is absolute: bit 0004 or 0002 of STRANS.
    Absolute,
    /// A polygon or a path has a side that is neither along a row nor along a column.
    Slanted,
}

/// Why a structure isn't flattened. Names come first, then cycles, the depth, the elements in the stream's order over the
/// structures in the order in which a walk reaches them, the count, and coordinates. (This project's own.)
#[derive(Debug, Drop, Error)]
pub enum FlatError {
    /// An element, the offset of which is that of its first byte in the stream, is something that isn't taken.
    #[error("an element at {offset} is not supported")]
    Unsupported {
        /// The place of its first byte.
        offset: u64,
        /// What it is.
        odd: Odd,
    },
    /// No structure has the name, which is the top's or that of a reference that is reached.
    #[error("a structure is missing")]
    NoSuchStructure {
        /// The name.
        name: Text,
    },
    /// Structures place each other in a circle.
    #[error("structures place each other in a circle")]
    Cyclic {
        /// The circle: each name is that of a structure that places the next one, and the last is the first.
        names: List<Text>,
    },
    /// The table neither maps the pair of an element that is reached nor passes over it.
    #[error("layer {layer}, {number} is neither mapped nor ignored")]
    UnmappedLayer {
        /// The layer.
        layer: i16,
        /// The data type, the text type or the box type.
        number: i16,
    },
    /// An array has less than one column or row, or a step of it isn't whole.
    #[error("the array at {offset} has no whole steps")]
    ArrayStep {
        /// The place of its first byte.
        offset: u64,
    },
    /// A rectangle or a label comes to a coordinate beyond 1,000,000,000 either way.
    #[error("what the element at {offset} gives lies too far out")]
    CoordinateRange {
        /// The place of the first byte of the element that gives the first such item.
        offset: u64,
    },
    /// There are more than 50,000 rectangles and labels.
    #[error("{count} rectangles and labels")]
    TooMany {
        /// How many there are, or 2^64 - 1 where there are more.
        count: u64,
    },
    /// More than 64 structures are placed in one another.
    #[error("more than 64 structures are placed in one another")]
    TooDeep,
    /// There was no memory.
    #[error("out of memory")]
    OutOfMemory,
}

impl From<OutOfMemory> for FlatError {
    ghost from_gives = { λ _ e. e ≡ Nothing };

    fn from(_error: OutOfMemory) -> FlatError {
        FlatError::OutOfMemory
    }
}

/// What is wrong with an element that is reached and isn't passed over. (This project's own.)
#[derive(Clone, Copy, Drop)]
pub enum ElementFault {
    /// The table neither maps its pair nor passes over it.
    Unmapped {
        /// The layer.
        layer: i16,
        /// The data type, the text type or the box type.
        number: i16,
    },
    /// It is something that isn't taken.
    Oddity {
        /// The place of its first byte.
        offset: u64,
        /// What it is.
        odd: Odd,
    },
    /// It is an array of less than one column or row, or a step of it isn't whole.
    Steps {
        /// The place of its first byte.
        offset: u64,
    },
}

impl From<ElementFault> for FlatError {
    ghost from_gives = { λ fault error. error ≡ refusal_of fault };

    fn from(fault: ElementFault) -> FlatError {
        match fault {
            ElementFault::Unmapped { layer, number } => FlatError::UnmappedLayer { layer, number },
            ElementFault::Oddity { offset, odd } => FlatError::Unsupported { offset, odd },
            ElementFault::Steps { offset } => FlatError::ArrayStep { offset },
        }
    }
}

// Why a walk stops.
#[derive(Drop)]
pub(crate) enum Stop {
    // No structure has the name.
    Unnamed(Text),
    // There was no memory.
    NoMemory,
}

impl From<OutOfMemory> for Stop {
    ghost from_gives = { λ _ stop. stop ≡ Ended };

    fn from(_error: OutOfMemory) -> Stop {
        Stop::NoMemory
    }
}

impl<T: Drop> From<AllocFailed<T>> for Stop {
    ghost from_gives = { λ _ stop. stop ≡ Ended };

    fn from(_error: AllocFailed<T>) -> Stop {
        Stop::NoMemory
    }
}

impl From<Stop> for FlatError {
    ghost from_gives = { λ stop error. error ≡ refusal_to stop };

    fn from(stop: Stop) -> FlatError {
        match stop {
            Stop::Unnamed(name) => FlatError::NoSuchStructure { name },
            Stop::NoMemory => FlatError::OutOfMemory,
        }
    }
}
