//! What `flatten` says, without the names.
use gds_flat::{FlatError, Odd};
use rt_layout::Layout;

// What is said of a structure.
#[derive(Clone, Copy, PartialEq, Eq, Drop)]
pub(crate) enum Said {
    // It is flattened.
    Flat,
    // A name is missing.
    Missing,
    // A circle of so many names, the first of which is also the last.
    Circle(usize),
    // Too many structures are placed in one another.
    Deep,
    // A layer and a number are neither mapped nor ignored.
    Unmapped(i16, i16),
    // The element at the offset has the odd.
    Unsupported(u64, Odd),
    // The array at the offset has no whole steps.
    Steps(u64),
    // There are so many rectangles and labels.
    Many(u64),
    // What the element at the offset gives lies too far out.
    Far(u64),
    // There was no memory.
    NoMemory,
}

pub(crate) fn said_of(answer: &Result<Layout, FlatError>) -> Said {
    match answer {
        Ok(_) => Said::Flat,
        Err(error) => said_of_error(error),
    }
}

fn said_of_error(error: &FlatError) -> Said {
    match error {
        FlatError::NoSuchStructure { .. } => Said::Missing,
        FlatError::Cyclic { names } => Said::Circle(names.as_slice().len()),
        FlatError::TooDeep => Said::Deep,
        FlatError::UnmappedLayer { layer, number } => Said::Unmapped(*layer, *number),
        FlatError::Unsupported { offset, odd } => Said::Unsupported(*offset, *odd),
        FlatError::ArrayStep { offset } => Said::Steps(*offset),
        FlatError::TooMany { count } => Said::Many(*count),
        FlatError::CoordinateRange { offset } => Said::Far(*offset),
        FlatError::OutOfMemory => Said::NoMemory,
    }
}
