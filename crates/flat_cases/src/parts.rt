//! What the tables of cases are written in: a part stands for an element, and a name with parts for a structure.
use crate::drawable::all_drawable;
use gds_flat::{FlatError, flatten};
use gds_stream::{Element, Library, Place, Points, Structure};
use rt_base::{List, Point, Text};
use rt_layout::Layout;
use rt_tables::read_tech;
use rt_tech::{Tech, Which};
use std::alloc::Global;
use std::test::Fail;

pub(crate) const ONE: [u8; 8] = [0x41, 0x10, 0, 0, 0, 0, 0, 0];

pub(crate) const NO_TURN: [u8; 8] = [0, 0, 0, 0, 0, 0, 0, 0];

pub(crate) const QUARTER: [u8; 8] = [0x42, 0x5a, 0, 0, 0, 0, 0, 0];

// How a reference turns what it places: its flags, its magnification and its angle.
pub(crate) type Turn = (u16, [u8; 8], [u8; 8]);

pub(crate) const AS_IT_IS: Turn = (0, ONE, NO_TURN);

pub(crate) type Name = &'static [u8];

pub(crate) type Corners = &'static [(i32, i32)];

// What stands for an element in a table.
#[derive(Clone, Copy, Drop)]
pub(crate) enum Part {
    // A polygon on a layer and a number, at offset 7.
    Shape(i16, i16, Corners),
    // A path on layer 1, at offset 11: its type, its width and its points.
    Line(i16, i32, Corners),
    // A box on a layer and a number, at offset 12.
    Frame(i16, i16),
    // The label "in" on a layer and a number, at offset 10.
    Note(i16, i16, (i32, i32)),
    // A structure that is placed once, at offset 8.
    Once(Name, Turn, (i32, i32)),
    // A structure that is placed in columns and rows, at offset 9.
    Rows(Name, Turn, (i16, i16), [(i32, i32); 3]),
}

// What stands for structures: their names and elements.
pub(crate) type Parts = &'static [(Name, &'static [Part])];

// Masks of layers 1 and 2, whose labels have number 5; layer 9 is passed over, and the pair (8, 3).
static TABLE: &str = "version = 1
grid = 1
units = \"41100000000000004110000000000000\"
ignore = [[9, -1], [8, 3]]
[[mask]]
name = \"low\"
role = \"metal\"
layer = 1
datatype = 0
text = [1, 5]
width = 1
space = 1
[[mask]]
name = \"high\"
role = \"metal\"
layer = 2
datatype = 0
text = [2, 5]
width = 1
space = 1
";

fn text(alloc: Global, bytes: &[u8]) -> Result<Text, Fail> {
    Ok(Text::of(List::of(Vec::from_slice(alloc, bytes)?)).ok_or("printable")?)
}

fn point(pair: &(i32, i32)) -> Point {
    Point {
        x: pair.0,
        y: pair.1,
    }
}

fn points(alloc: Global, pairs: &[(i32, i32)]) -> Result<List<Point>, Fail> {
    let mut points = List::new(alloc);
    for pair in pairs {
        points.push(point(pair))?;
    }
    Ok(points)
}

fn place_of(turn: &Turn) -> Place {
    Place {
        flags: turn.0,
        mag: turn.1,
        angle: turn.2,
    }
}

fn shape(alloc: Global, layer: i16, datatype: i16, corners: Corners) -> Result<Element, Fail> {
    Ok(Element::Boundary {
        offset: 7,
        layer,
        datatype,
        points: Points::of(points(alloc, corners)?),
    })
}

fn line(alloc: Global, pathtype: i16, width: i32, corners: Corners) -> Result<Element, Fail> {
    Ok(Element::Path {
        offset: 11,
        layer: 1,
        datatype: 0,
        pathtype,
        width,
        points: Points::of(points(alloc, corners)?),
    })
}

fn note(alloc: Global, layer: i16, texttype: i16, at: &(i32, i32)) -> Result<Element, Fail> {
    Ok(Element::Label {
        offset: 10,
        layer,
        texttype,
        at: point(at),
        text: text(alloc, b"in")?,
    })
}

// A structure that is placed once.
pub(crate) fn once(
    alloc: Global,
    name: &[u8],
    turn: &Turn,
    at: &(i32, i32),
) -> Result<Element, Fail> {
    Ok(Element::Sref {
        offset: 8,
        name: text(alloc, name)?,
        place: place_of(turn),
        at: point(at),
    })
}

fn rows(
    alloc: Global,
    name: &[u8],
    turn: &Turn,
    size: &(i16, i16),
    at: &[(i32, i32); 3],
) -> Result<Element, Fail> {
    let [origin, right, up] = at;
    Ok(Element::Aref {
        offset: 9,
        name: text(alloc, name)?,
        place: place_of(turn),
        columns: size.0,
        rows: size.1,
        points: [point(origin), point(right), point(up)],
    })
}

fn element(alloc: Global, part: &Part) -> Result<Element, Fail> {
    match part {
        Part::Shape(layer, number, corners) => shape(alloc, *layer, *number, corners),
        Part::Line(pathtype, width, corners) => line(alloc, *pathtype, *width, corners),
        Part::Frame(layer, boxtype) => Ok(Element::BoxShape {
            offset: 12,
            layer: *layer,
            boxtype: *boxtype,
        }),
        Part::Note(layer, number, at) => note(alloc, *layer, *number, at),
        Part::Once(name, turn, at) => once(alloc, name, turn, at),
        Part::Rows(name, turn, size, at) => rows(alloc, name, turn, size, at),
    }
}

// A structure of elements.
pub(crate) fn structure(
    alloc: Global,
    name: &[u8],
    elements: Vec<Element>,
) -> Result<Structure, Fail> {
    Ok(Structure {
        name: text(alloc, name)?,
        elements: List::of(elements),
    })
}

// A structure of parts.
pub(crate) fn of_parts(alloc: Global, name: &[u8], parts: &[Part]) -> Result<Structure, Fail> {
    let mut elements = Vec::new(alloc);
    for part in parts {
        elements.push(element(alloc, part)?)?;
    }
    structure(alloc, name, elements)
}

// Appends structures.
pub(crate) fn push_parts(
    alloc: Global,
    structures: &mut Vec<Structure>,
    parts: Parts,
) -> Result<(), Fail> {
    for (name, parts) in parts {
        structures.push(of_parts(alloc, name, parts)?)?;
    }
    Ok(())
}

fn library(alloc: Global, structures: Vec<Structure>) -> Result<Library, Fail> {
    Ok(Library {
        name: text(alloc, b"LIB")?,
        units: [0; 16],
        structures: List::of(structures),
    })
}

// The table, which passes over what it doesn't list or refuses it.
fn tech(alloc: Global, drop_unlisted: bool) -> Result<Tech, Fail> {
    let mut tech = read_tech(alloc, TABLE.as_bytes(), Which::Source)
        .ok()
        .ok_or("no table")?;
    tech.drop_unlisted = drop_unlisted;
    Ok(tech)
}

// What `flatten` answers for A.
pub(crate) fn flattened(
    alloc: Global,
    structures: Vec<Structure>,
    drop_unlisted: bool,
) -> Result<Result<Layout, FlatError>, Fail> {
    let library = library(alloc, structures)?;
    let tech = tech(alloc, drop_unlisted)?;
    flattened_by(alloc, &library, &tech)
}

// What `flatten` answers for A of the library, by the table.
fn flattened_by(
    alloc: Global,
    library: &Library,
    tech: &Tech,
) -> Result<Result<Layout, FlatError>, Fail> {
    if !all_drawable(library.structures.as_slice()) || tech.masks.as_slice().len() > 100 {
        return Err("not drawable".into());
    }
    let top = text(alloc, b"A")?;
    Ok(flatten(alloc, library, &top, tech))
}
