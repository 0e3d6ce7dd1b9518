//! What a stream holds.
ghost use Rattle.std.specs.Prelude.{◌≡◌, Some, None, MatchOption};
ghost use Rattle.gds_stream.specs.Elements.{offset_of, target_of};

use crate::points::Points;
use rt_base::{List, Point, Text};

/// How a reference turns and scales what it places, as the stream says it. (GDSII Release 6: STRANS, MAG and ANGLE.)
#[derive(Clone, Copy, PartialEq, Eq, Drop)]
pub struct Place {
    /// The bits of STRANS: 0x8000 reflects about the x axis; 0 where there is none.
    pub flags: u16,
    /// The magnification, a real of the format; the real 1 where there is none.
    pub mag: [u8; 8],
    /// The angle in degrees, counterclockwise, a real of the format; the real 0 where there is none.
    pub angle: [u8; 8],
}

/// An element of a structure. `offset` is the place of its first byte in the stream, and coordinates are in
/// database units of the stream.
#[derive(Drop)]
pub enum Element {
    /// A polygon. Its last point is its first.
    Boundary {
        offset: u64,
        layer: i16,
        datatype: i16,
        points: Points,
    },
    /// A path: how it ends, its width and the points that it goes through.
    Path {
        offset: u64,
        layer: i16,
        datatype: i16,
        pathtype: i16,
        width: i32,
        points: Points,
    },
    /// A structure that is placed once.
    Sref {
        offset: u64,
        name: Text,
        place: Place,
        at: Point,
    },
    /// A structure that is placed in columns and rows: the first place, and the ends of the columns and of the rows.
    Aref {
        offset: u64,
        name: Text,
        place: Place,
        columns: i16,
        rows: i16,
        points: [Point; 3],
    },
    /// A text at a point.
    Label {
        offset: u64,
        layer: i16,
        texttype: i16,
        at: Point,
        text: Text,
    },
    /// A box, which is no polygon to be drawn.
    BoxShape {
        offset: u64,
        layer: i16,
        boxtype: i16,
    },
}

impl Element {
    /// The place of its first byte in the stream.
    pub fn offset(&self) -> u64
        ensures { result ≡ offset_of self.now }
    {
        match self {
            Element::Boundary { offset, .. } => *offset,
            Element::Path { offset, .. } => *offset,
            Element::Sref { offset, .. } => *offset,
            Element::Aref { offset, .. } => *offset,
            Element::Label { offset, .. } => *offset,
            Element::BoxShape { offset, .. } => *offset,
        }
    }

    /// The name of the structure that it places, if it places one.
    pub fn target(&self) -> Option<&Text>
        ensures { MatchOption result (target_of self.now ≡ None) (λ n. target_of self.now ≡ Some n.now) }
    {
        match self {
            Element::Sref { name, .. } | Element::Aref { name, .. } => Some(name),
            _ => None,
        }
    }
}

/// A structure: its name, which isn't empty, and its elements in the stream's order.
#[derive(Drop)]
pub struct Structure {
    /// Its name.
    pub name: Text,
    /// Its elements.
    pub elements: List<Element>,
}

/// What a stream holds: structures of different names, in the stream's order.
#[derive(Drop)]
pub struct Library {
    /// Its name.
    pub name: Text,
    /// The database unit in user units and then in metres, two reals of the format.
    pub units: [u8; 16],
    /// Its structures.
    pub structures: List<Structure>,
}
