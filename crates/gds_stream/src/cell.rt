//! A cell that refers to no other, as it is handed to the writer.
use rt_base::{List, Text};

/// A cell that refers to no other: rectangles and texts.
#[derive(Drop)]
pub struct Flat {
    /// The name of its library.
    pub library: Text,
    /// Its own name.
    pub name: Text,
    /// The database unit in user units and then in metres, two reals of the format.
    pub units: [u8; 16],
    /// Its rectangles in order.
    pub shapes: List<Shape>,
    /// Its texts in order.
    pub texts: List<Note>,
}

/// A rectangle by two opposite corners, in database units of the stream.
#[derive(Clone, Copy, Debug, PartialEq, Eq, Drop)]
pub struct Shape {
    /// Its layer.
    pub layer: i16,
    /// Its data type.
    pub datatype: i16,
    /// The first corner, across.
    pub x1: i32,
    /// The first corner, upwards.
    pub y1: i32,
    /// The opposite corner, across.
    pub x2: i32,
    /// The opposite corner, upwards.
    pub y2: i32,
}

/// A text at a point, in database units of the stream.
#[derive(Drop)]
pub struct Note {
    /// Its layer.
    pub layer: i16,
    /// Its type.
    pub texttype: i16,
    /// Where it stands, across.
    pub x: i32,
    /// Where it stands, upwards.
    pub y: i32,
    /// Its bytes.
    pub text: Text,
}
