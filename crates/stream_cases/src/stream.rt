//! Streams: written byte by byte, read, and refused at a place and for a cause.
ghost use Rattle.std.specs.Prelude.{◌≡◌, ◌<◌, ◌≤◌, [], ◌∷◌, length, IfOk};

use gds_records::{
    ANGLE, AREF, BGNEXTN, BGNLIB, BGNSTR, BITS, BOUNDARY, BOX, BOXTYPE, CHARACTERS, COLROW,
    DATATYPE, ELFLAGS, ENDEL, ENDEXTN, ENDLIB, ENDSTR, FOUR_BYTES, HEADER, LAYER, LIBNAME, MAG,
    NO_DATA, NODE, NODETYPE, PATH, PATHTYPE, PLEX, PRESENTATION, PROPATTR, PROPVALUE, REAL,
    REFLIBS, SNAME, SREF, STRANS, STRING, STRNAME, TEXT, TEXTTYPE, TWO_BYTES, UNITS as UNITS_TYPE,
    WIDTH, XY,
};
use gds_stream::{
    Cause, Element, Flat, Note, Place, Shape, StreamError, read_stream, write_stream,
};
use rt_base::{List, Point, Text};
use std::alloc::Global;
use std::test::Fail;

// The stream of one rectangle.
const ONE_RECTANGLE: [u8; 170] = [
    0, 6, 0, 2, 2, 88, 0, 28, 1, 2, 0, 0, 0, 0, 0, 0, 0, 0, 0, 0, 0, 0, 0, 0, 0, 0, 0, 0, 0, 0, 0,
    0, 0, 0, 0, 8, 2, 6, 76, 73, 66, 0, 0, 20, 3, 5, 65, 16, 0, 0, 0, 0, 0, 0, 65, 16, 0, 0, 0, 0,
    0, 0, 0, 28, 5, 2, 0, 0, 0, 0, 0, 0, 0, 0, 0, 0, 0, 0, 0, 0, 0, 0, 0, 0, 0, 0, 0, 0, 0, 0, 0,
    8, 6, 6, 84, 79, 80, 0, 0, 4, 8, 0, 0, 6, 13, 2, 0, 1, 0, 6, 14, 2, 0, 0, 0, 44, 16, 3, 0, 0,
    0, 0, 0, 0, 0, 0, 0, 0, 0, 6, 0, 0, 0, 0, 0, 0, 0, 6, 0, 0, 0, 6, 0, 0, 0, 0, 0, 0, 0, 6, 0, 0,
    0, 0, 0, 0, 0, 0, 0, 4, 17, 0, 0, 4, 7, 0, 0, 4, 4, 0,
];

// The stream of no element.
static NO_ELEMENT: [u8; 106] = [
    0, 6, 0, 2, 2, 88, 0, 28, 1, 2, 0, 0, 0, 0, 0, 0, 0, 0, 0, 0, 0, 0, 0, 0, 0, 0, 0, 0, 0, 0, 0,
    0, 0, 0, 0, 8, 2, 6, 76, 73, 66, 0, 0, 20, 3, 5, 65, 16, 0, 0, 0, 0, 0, 0, 65, 16, 0, 0, 0, 0,
    0, 0, 0, 28, 5, 2, 0, 0, 0, 0, 0, 0, 0, 0, 0, 0, 0, 0, 0, 0, 0, 0, 0, 0, 0, 0, 0, 0, 0, 0, 0,
    8, 6, 6, 84, 79, 80, 0, 0, 4, 7, 0, 0, 4, 4, 0,
];

// The stream of one text, ABC at (-5, 7).
static ONE_TEXT: [u8; 146] = [
    0, 6, 0, 2, 2, 88, 0, 28, 1, 2, 0, 0, 0, 0, 0, 0, 0, 0, 0, 0, 0, 0, 0, 0, 0, 0, 0, 0, 0, 0, 0,
    0, 0, 0, 0, 8, 2, 6, 76, 73, 66, 0, 0, 20, 3, 5, 65, 16, 0, 0, 0, 0, 0, 0, 65, 16, 0, 0, 0, 0,
    0, 0, 0, 28, 5, 2, 0, 0, 0, 0, 0, 0, 0, 0, 0, 0, 0, 0, 0, 0, 0, 0, 0, 0, 0, 0, 0, 0, 0, 0, 0,
    8, 6, 6, 84, 79, 80, 0, 0, 4, 12, 0, 0, 6, 13, 2, 255, 255, 0, 6, 22, 2, 0, 2, 0, 12, 16, 3,
    255, 255, 255, 251, 0, 0, 0, 7, 0, 8, 25, 6, 65, 66, 67, 0, 0, 4, 17, 0, 0, 4, 7, 0, 0, 4, 4,
    0,
];

const UNITS: [u8; 16] = [0x41, 0x10, 0, 0, 0, 0, 0, 0, 0x41, 0x10, 0, 0, 0, 0, 0, 0];

const RECTANGLE: Shape = Shape {
    layer: 1,
    datatype: 0,
    x1: 0,
    y1: 0,
    x2: 6,
    y2: 6,
};

fn text(alloc: Global, bytes: &[u8]) -> Result<Text, Fail>
    ensures { IfOk result (λ t. t ≡ bytes.now) }
{
    let list = List::of(Vec::from_slice(alloc, bytes)?);
    Ok(Text::of(list).ok_or("the bytes are printable")?)
}

fn cell(alloc: Global, shapes: List<Shape>, texts: List<Note>) -> Result<Flat, Fail>
    ensures named { IfOk result (λ c. length c.name ≡ 3) }
    ensures library { IfOk result (λ c. length c.library ≡ 3) }
    ensures texts { IfOk result (λ c. c.texts ≡ texts) }
{
    Ok(Flat {
        library: text(alloc, b"LIB")?,
        name: text(alloc, b"TOP")?,
        units: UNITS,
        shapes,
        texts,
    })
}

#[test]
fn writes_one_rectangle(rt: HostRuntime) -> Result<(), Fail> {
    let mut shapes = List::new(rt.alloc());
    shapes.push(RECTANGLE)?;
    let cell = cell(rt.alloc(), shapes, List::new(rt.alloc()))?;
    let bytes = write_stream(rt.alloc(), &cell)?;
    assert_eq!(rt; bytes.as_slice(), ONE_RECTANGLE.as_slice());
    Ok(())
}

#[test]
fn writes_no_element(rt: HostRuntime) -> Result<(), Fail> {
    let cell = cell(rt.alloc(), List::new(rt.alloc()), List::new(rt.alloc()))?;
    let bytes = write_stream(rt.alloc(), &cell)?;
    assert_eq!(rt; bytes.as_slice(), NO_ELEMENT.as_slice());
    Ok(())
}

#[test]
fn pads_a_text_of_odd_length(rt: HostRuntime) -> Result<(), Fail> {
    let mut texts = List::new(rt.alloc());
    let text = text(rt.alloc(), b"ABC")?;
    texts.push(Note {
        layer: -1,
        texttype: 2,
        x: -5,
        y: 7,
        text,
    })?;
    let cell = cell(rt.alloc(), List::new(rt.alloc()), texts)?;
    let bytes = write_stream(rt.alloc(), &cell)?;
    assert_eq!(rt; bytes.as_slice(), ONE_TEXT.as_slice());
    Ok(())
}

// A stream's beginning, up to its units, and its end.
static FRONT: [u8; 62] = [
    0, 6, 0, 2, 2, 88, 0, 28, 1, 2, 0, 0, 0, 0, 0, 0, 0, 0, 0, 0, 0, 0, 0, 0, 0, 0, 0, 0, 0, 0, 0,
    0, 0, 0, 0, 8, 2, 6, 76, 73, 66, 0, 0, 20, 3, 5, 65, 16, 0, 0, 0, 0, 0, 0, 65, 16, 0, 0, 0, 0,
    0, 0,
];

const STRUCTURE: [u8; 36] = [
    0, 28, 5, 2, 0, 0, 0, 0, 0, 0, 0, 0, 0, 0, 0, 0, 0, 0, 0, 0, 0, 0, 0, 0, 0, 0, 0, 0, 0, 8, 6,
    6, 84, 79, 80, 0,
];

static END: [u8; 8] = [0, 4, 7, 0, 0, 4, 4, 0];

// Where the records of ONE_RECTANGLE begin.
static RECORDS: [u64; 13] = [0, 6, 34, 42, 62, 90, 98, 102, 108, 114, 158, 162, 166];

fn joined(alloc: Global, pieces: &[&[u8]]) -> Result<Vec<u8>, Fail> {
    let mut bytes = Vec::new(alloc);
    for piece in pieces {
        bytes.extend_from_slice(piece)?;
    }
    Ok(bytes)
}

// The place and the cause for which bytes aren't read.
fn refusal(alloc: Global, bytes: &[u8]) -> Option<(u64, Cause)> {
    match read_stream(alloc, bytes) {
        Err(StreamError::At { offset, cause }) => Some((offset, cause)),
        _ => None,
    }
}

// Where bytes that are cut at a place stop being a stream, by the places where records begin.
fn cut(length: u64) -> (u64, Cause) {
    let mut place = 0;
    for record in RECORDS {
        if record <= length {
            place = record;
        }
    }
    if place == length {
        (place, Cause::NotClosed)
    } else {
        (place, Cause::Short)
    }
}

#[test]
fn refuses_every_prefix(rt: HostRuntime) -> Result<(), Fail> {
    for length in 0..170 {
        let prefix = &ONE_RECTANGLE[..length];
        assert_eq!(rt; refusal(rt.alloc(), prefix), Some(cut(length as u64)));
    }
    Ok(())
}

// A byte of ONE_RECTANGLE, what it is changed to, and where the bytes stop then, and why.
static CHANGES: [(usize, u8, u64, Cause); 16] = [
    (159, 100, 158, Cause::Short),
    (115, 43, 114, Cause::OddLength),
    (159, 2, 158, Cause::LengthBelow4),
    (104, 0x40, 102, Cause::UnknownType),
    (105, 3, 102, Cause::WrongData),
    (161, 2, 158, Cause::WrongData),
    (157, 1, 114, Cause::WrongData),
    (94, 0, 90, Cause::BadText),
    (94, 200, 90, Cause::BadText),
    (38, 31, 34, Cause::BadText),
    (104, 0x16, 102, Cause::Unexpected { code: 0x16 }),
    (100, 0x15, 108, Cause::Unexpected { code: 0x0e }),
    (110, 0x2b, 108, Cause::Unexpected { code: 0x2b }),
    (116, 0x0f, 114, Cause::Unexpected { code: 0x0f }),
    (160, 7, 158, Cause::Unexpected { code: 7 }),
    (164, 4, 162, Cause::Unexpected { code: 4 }),
];

// What is answered where one byte of ONE_RECTANGLE is another.
fn refusal_changed(alloc: Global, place: usize, byte: u8) -> Option<(u64, Cause)>
    requires { place < 170 }
{
    let mut bytes = ONE_RECTANGLE;
    bytes[place] = byte;
    refusal(alloc, &bytes)
}

#[test]
fn refuses_changed_bytes(rt: HostRuntime) -> Result<(), Fail> {
    for (place, byte, offset, cause) in &CHANGES {
        assert!(rt; *place < 170);
        assert_eq!(rt;
            refusal_changed(rt.alloc(), *place, *byte),
            Some((*offset, *cause)),
            "at {place}"
        );
    }
    Ok(())
}

// Elements of each type, with all that the format allows in them.
static EACH_ELEMENT: [u8; 598] = [
    0, 4, 8, 0, 0, 6, 38, 1, 0, 1, 0, 8, 47, 3, 0, 0, 0, 1, 0, 6, 13, 2, 255, 254, 0, 6, 14, 2, 0,
    3, 0, 36, 16, 3, 0, 0, 0, 0, 0, 0, 0, 0, 0, 0, 0, 5, 0, 0, 0, 0, 0, 0, 0, 5, 255, 255, 255,
    249, 0, 0, 0, 0, 0, 0, 0, 0, 0, 6, 43, 2, 0, 1, 0, 6, 44, 6, 255, 0, 0, 6, 43, 2, 0, 2, 0, 6,
    44, 6, 98, 0, 0, 4, 17, 0, 0, 4, 9, 0, 0, 6, 13, 2, 0, 1, 0, 6, 14, 2, 0, 0, 0, 6, 33, 2, 0, 2,
    0, 8, 15, 3, 255, 255, 255, 216, 0, 8, 48, 3, 0, 0, 0, 1, 0, 4, 49, 9, 0, 20, 16, 3, 0, 0, 0,
    0, 0, 0, 0, 0, 0, 0, 0, 10, 0, 0, 0, 1, 0, 4, 17, 0, 0, 4, 9, 0, 0, 8, 47, 3, 0, 0, 0, 1, 0, 6,
    13, 2, 0, 1, 0, 6, 14, 2, 0, 0, 0, 28, 16, 3, 0, 0, 0, 0, 0, 0, 0, 0, 0, 0, 0, 10, 0, 0, 0, 1,
    0, 0, 0, 10, 0, 0, 0, 20, 0, 4, 17, 0, 0, 4, 10, 0, 0, 8, 18, 6, 83, 85, 66, 0, 0, 12, 16, 3,
    255, 255, 255, 253, 0, 0, 0, 4, 0, 4, 17, 0, 0, 4, 10, 0, 0, 6, 38, 1, 0, 0, 0, 8, 18, 6, 83,
    85, 66, 83, 0, 6, 26, 1, 128, 0, 0, 12, 28, 5, 66, 90, 0, 0, 0, 0, 0, 0, 0, 12, 16, 3, 0, 0, 0,
    3, 255, 255, 255, 252, 0, 4, 17, 0, 0, 4, 11, 0, 0, 8, 18, 6, 83, 85, 66, 0, 0, 6, 26, 1, 0, 4,
    0, 12, 27, 5, 65, 32, 0, 0, 0, 0, 0, 0, 0, 12, 28, 5, 66, 90, 0, 0, 0, 0, 0, 0, 0, 8, 19, 2, 0,
    3, 0, 2, 0, 28, 16, 3, 0, 0, 0, 1, 0, 0, 0, 1, 0, 0, 0, 31, 0, 0, 0, 1, 0, 0, 0, 1, 0, 0, 0,
    21, 0, 4, 17, 0, 0, 4, 12, 0, 0, 6, 13, 2, 0, 7, 0, 6, 22, 2, 0, 8, 0, 6, 23, 1, 0, 5, 0, 6,
    33, 2, 0, 1, 0, 8, 15, 3, 0, 0, 0, 9, 0, 6, 26, 1, 0, 0, 0, 12, 27, 5, 65, 32, 0, 0, 0, 0, 0,
    0, 0, 12, 16, 3, 255, 255, 255, 255, 255, 255, 255, 254, 0, 8, 25, 6, 65, 66, 67, 0, 0, 4, 17,
    0, 0, 4, 12, 0, 0, 6, 13, 2, 0, 7, 0, 6, 22, 2, 0, 8, 0, 12, 16, 3, 127, 255, 255, 255, 128, 0,
    0, 0, 0, 4, 25, 6, 0, 4, 17, 0, 0, 4, 21, 0, 0, 6, 13, 2, 0, 7, 0, 6, 42, 2, 0, 8, 0, 12, 16,
    3, 0, 0, 0, 0, 0, 0, 0, 0, 0, 6, 43, 2, 0, 1, 0, 4, 44, 6, 0, 4, 17, 0, 0, 4, 45, 0, 0, 6, 13,
    2, 128, 0, 0, 6, 46, 2, 127, 255, 0, 44, 16, 3, 0, 0, 0, 0, 0, 0, 0, 0, 0, 0, 0, 1, 0, 0, 0, 0,
    0, 0, 0, 1, 0, 0, 0, 1, 0, 0, 0, 0, 0, 0, 0, 1, 0, 0, 0, 0, 0, 0, 0, 0, 0, 4, 17, 0,
];

// What an element holds: the type of its first record and that record's place, the numbers of its layer, its type and what
// more its kind has, how it is placed, its points, and its name or text.
struct Held {
    code: u8,
    offset: u64,
    numbers: [i64; 4],
    place: Option<Place>,
    points: &'static [(i32, i32)],
    text: &'static [u8],
}

const ONE: [u8; 8] = [0x41, 0x10, 0, 0, 0, 0, 0, 0];

const TWO: [u8; 8] = [0x41, 0x20, 0, 0, 0, 0, 0, 0];

const NINETY: [u8; 8] = [0x42, 0x5a, 0, 0, 0, 0, 0, 0];

// What each of EACH_ELEMENT holds; the node gives none.
static HELD: [Held; 9] = [
    Held {
        code: BOUNDARY,
        offset: 98,
        numbers: [-2, 3, 0, 0],
        place: None,
        points: &[(0, 0), (5, 0), (5, -7), (0, 0)],
        text: b"",
    },
    Held {
        code: PATH,
        offset: 192,
        numbers: [1, 0, 2, -40],
        place: None,
        points: &[(0, 0), (10, 1)],
        text: b"",
    },
    Held {
        code: PATH,
        offset: 258,
        numbers: [1, 0, 0, 0],
        place: None,
        points: &[(0, 0), (10, 1), (10, 20)],
        text: b"",
    },
    Held {
        code: SREF,
        offset: 314,
        numbers: [0, 0, 0, 0],
        place: Some(Place {
            flags: 0,
            mag: ONE,
            angle: [0; 8],
        }),
        points: &[(-3, 4)],
        text: b"SUB",
    },
    Held {
        code: SREF,
        offset: 342,
        numbers: [0, 0, 0, 0],
        place: Some(Place {
            flags: 0x8000,
            mag: ONE,
            angle: NINETY,
        }),
        points: &[(3, -4)],
        text: b"SUBS",
    },
    Held {
        code: AREF,
        offset: 394,
        numbers: [3, 2, 0, 0],
        place: Some(Place {
            flags: 4,
            mag: TWO,
            angle: NINETY,
        }),
        points: &[(1, 1), (31, 1), (1, 21)],
        text: b"SUB",
    },
    Held {
        code: TEXT,
        offset: 476,
        numbers: [7, 8, 0, 0],
        place: None,
        points: &[(-1, -2)],
        text: b"ABC",
    },
    Held {
        code: TEXT,
        offset: 554,
        numbers: [7, 8, 0, 0],
        place: None,
        points: &[(2147483647, -2147483648)],
        text: b"",
    },
    Held {
        code: BOX,
        offset: 632,
        numbers: [-32768, 32767, 0, 0],
        place: None,
        points: &[],
        text: b"",
    },
];

fn code_of(element: &Element) -> u8 {
    match element {
        Element::Boundary { .. } => BOUNDARY,
        Element::Path { .. } => PATH,
        Element::Sref { .. } => SREF,
        Element::Aref { .. } => AREF,
        Element::Label { .. } => TEXT,
        Element::BoxShape { .. } => BOX,
    }
}

fn numbers_of(element: &Element) -> [i64; 4] {
    match element {
        Element::Boundary {
            layer,
            datatype,
            ..
        } => [*layer as i64, *datatype as i64, 0, 0],
        Element::Path {
            layer,
            datatype,
            pathtype,
            width,
            ..
        } => [
            *layer as i64,
            *datatype as i64,
            *pathtype as i64,
            *width as i64,
        ],
        Element::Sref { .. } => [0, 0, 0, 0],
        Element::Aref { columns, rows, .. } => [*columns as i64, *rows as i64, 0, 0],
        Element::Label {
            layer,
            texttype,
            ..
        } => [*layer as i64, *texttype as i64, 0, 0],
        Element::BoxShape { layer, boxtype, .. } => [*layer as i64, *boxtype as i64, 0, 0],
    }
}

fn place_of(element: &Element) -> Option<Place> {
    match element {
        Element::Sref { place, .. } | Element::Aref { place, .. } => Some(*place),
        _ => None,
    }
}

fn are_at(points: &[Point], want: &[(i32, i32)]) -> bool {
    points.len() == want.len()
        && points
            .iter()
            .zip(want)
            .all(|(p, (x, y))| p.x == *x && p.y == *y)
}

fn has_points(element: &Element, want: &[(i32, i32)]) -> bool {
    match element {
        Element::Boundary { points, .. } | Element::Path { points, .. } => are_at(
            points.as_slice(),
            want,
        ),
        Element::Sref { at, .. } | Element::Label { at, .. } => are_at(&[*at], want),
        Element::Aref { points, .. } => are_at(points, want),
        Element::BoxShape { .. } => want.is_empty(),
    }
}

fn text_of(element: &Element) -> &[u8] {
    match element {
        Element::Sref { name, .. } | Element::Aref { name, .. } => name.as_slice(),
        Element::Label { text, .. } => text.as_slice(),
        _ => &[],
    }
}

// Whether the element holds what is wanted.
fn is_held(element: &Element, want: &Held) -> bool {
    code_of(element) == want.code
        && element.offset() == want.offset
        && numbers_of(element) == want.numbers
        && place_of(element) == want.place
        && has_points(element, want.points)
        && text_of(element) == want.text
}

#[test]
fn reads_each_element(rt: HostRuntime) -> Result<(), Fail> {
    let bytes = joined(
        rt.alloc(),
        &[&FRONT, &STRUCTURE, &EACH_ELEMENT, &END, &[0; 5]],
    )?;
    let library = read_stream(rt.alloc(), &bytes)?;
    assert_eq!(rt; library.name.as_slice(), b"LIB".as_slice());
    assert_eq!(rt; library.units, UNITS);
    assert_eq!(rt; library.structures.as_slice().len(), 1);
    let structure = &library.structures.as_slice()[0];
    assert_eq!(rt; structure.name.as_slice(), b"TOP".as_slice());
    let elements = structure.elements.as_slice();
    assert_eq!(rt; elements.len(), 9);
    for (element, want) in elements.iter().zip(&HELD) {
        assert!(rt; is_held(element, want), "at {}", want.offset);
    }
    Ok(())
}

// The names that references place.
#[test]
fn only_references_have_targets(rt: HostRuntime) -> Result<(), Fail> {
    let bytes = joined(rt.alloc(), &[&FRONT, &STRUCTURE, &EACH_ELEMENT, &END])?;
    let library = read_stream(rt.alloc(), &bytes)?;
    for structure in library.structures.as_slice() {
        for element in structure.elements.as_slice() {
            assert_eq!(rt; element.target().is_some(), place_of(element).is_some());
        }
    }
    Ok(())
}

// A skipped record, an element's flags, and a property.
const SKIPPED: [u8; 48] = [
    0, 48, 0x1f, 6, 0, 0, 0, 0, 0, 0, 0, 0, 0, 0, 0, 0, 0, 0, 0, 0, 0, 0, 0, 0, 0, 0, 0, 0, 0, 0,
    0, 0, 0, 0, 0, 0, 0, 0, 0, 0, 0, 0, 0, 0, 0, 0, 0, 0,
];

const FLAGS: [u8; 6] = [0, 6, 0x26, 1, 0, 0];

const PROPERTY: [u8; 12] = [0, 6, 0x2b, 2, 0, 1, 0, 6, 0x2c, 6, 97, 0];

// What is left of the rectangle among them.
static KEPT: Held = Held {
    code: BOUNDARY,
    offset: 146,
    numbers: [1, 0, 0, 0],
    place: None,
    points: &[(0, 0), (6, 0), (6, 6), (0, 6), (0, 0)],
    text: b"",
};

#[test]
fn drops_skipped_records_and_properties(rt: HostRuntime) -> Result<(), Fail> {
    let bytes = joined(
        rt.alloc(),
        &[
            &ONE_RECTANGLE[..42],
            &SKIPPED,
            &ONE_RECTANGLE[42..102],
            &FLAGS,
            &ONE_RECTANGLE[102..158],
            &PROPERTY,
            &ONE_RECTANGLE[158..],
        ],
    )?;
    let library = read_stream(rt.alloc(), &bytes)?;
    assert_eq!(rt; library.structures.as_slice().len(), 1);
    let elements = library.structures.as_slice()[0].elements.as_slice();
    assert_eq!(rt; elements.len(), 1);
    assert!(rt; is_held(&elements[0], &KEPT));
    Ok(())
}

// Pieces behind ONE_RECTANGLE's records up to a place, where bytes with them stop being a stream, and why.
static PIECES: [(usize, &[u8], u64, Cause); 12] = [
    (6, &SKIPPED, 6, Cause::Unexpected { code: 0x1f }),
    (62, &SKIPPED, 62, Cause::Unexpected { code: 0x1f }),
    (90, &SKIPPED, 90, Cause::Unexpected { code: 0x1f }),
    (102, &SKIPPED, 102, Cause::Unexpected { code: 0x1f }),
    (162, &SKIPPED, 162, Cause::Unexpected { code: 0x1f }),
    (108, &FLAGS, 108, Cause::Unexpected { code: 0x26 }),
    (158, &FLAGS, 158, Cause::Unexpected { code: 0x26 }),
    (114, &PROPERTY, 114, Cause::Unexpected { code: 0x2b }),
    (
        158,
        &[0, 6, 0x2c, 6, 97, 0],
        158,
        Cause::Unexpected { code: 0x2c },
    ),
    (166, &STRUCTURE, 194, Cause::DuplicateName),
    (170, &[0, 0, 7], 172, Cause::Unexpected { code: 7 }),
    (170, &ONE_RECTANGLE, 171, Cause::Unexpected { code: 6 }),
];

// What is answered where a piece stands between the bytes of ONE_RECTANGLE before one place and those from another one on.
fn refusal_with(
    alloc: Global,
    front: usize,
    piece: &[u8],
    end: usize,
) -> Result<Option<(u64, Cause)>, Fail>
    requires front { front ≤ 170 }
    requires end { end ≤ 170 }
{
    let bytes = joined(
        alloc,
        &[&ONE_RECTANGLE[..front], piece, &ONE_RECTANGLE[end..]],
    )?;
    Ok(refusal(alloc, &bytes))
}

#[test]
fn refuses_pieces_in_wrong_places(rt: HostRuntime) -> Result<(), Fail> {
    for (place, piece, offset, cause) in &PIECES {
        assert!(rt; *place <= 170);
        let found = refusal_with(rt.alloc(), *place, piece, *place)?;
        assert_eq!(rt; found, Some((*offset, *cause)), "at {place}");
    }
    Ok(())
}

// The data type and the length of the data that a record of a type has here, where an element has so many points.
fn data_of(code: u8, points: u8) -> (u8, u8)
    requires { points ≤ 5 }
    ensures { result.1 ≤ 40 }
{
    match code {
        ELFLAGS | PRESENTATION | STRANS => (BITS, 2),
        HEADER | LAYER | DATATYPE | TEXTTYPE | PATHTYPE => (TWO_BYTES, 2),
        NODETYPE | BOXTYPE | PROPATTR => (TWO_BYTES, 2),
        COLROW => (TWO_BYTES, 4),
        BGNLIB | BGNSTR => (TWO_BYTES, 24),
        PLEX | WIDTH | BGNEXTN | ENDEXTN => (FOUR_BYTES, 4),
        XY => (FOUR_BYTES, 8 * points),
        MAG | ANGLE => (REAL, 8),
        UNITS_TYPE => (REAL, 16),
        LIBNAME | STRNAME | SNAME | STRING | PROPVALUE | REFLIBS => (CHARACTERS, 2),
        _ => (NO_DATA, 0),
    }
}

// How many points the element that these types begin with has here.
fn points_in(codes: &[u8]) -> u8
    ensures { result ≤ 5 }
{
    match codes {
        [SREF | TEXT, ..] => 1,
        [AREF, ..] => 3,
        _ => 5,
    }
}

// Records of these types. Each byte of their data is the letter A.
fn records(alloc: Global, codes: &[u8]) -> Result<Vec<u8>, Fail> {
    let points = points_in(codes);
    let mut bytes = Vec::new(alloc);
    for code in codes {
        let (form, length) = data_of(*code, points);
        bytes.extend_from_slice(&[0, 4 + length, *code, form])?;
        bytes.extend_from_slice(&[65; 40][..length as usize])?;
    }
    Ok(bytes)
}

// Types of records, where among them the first one stands with which no stream goes on, and its type.
type Row = (&'static [u8], u16, u8);

// Records of which one is left out, out of its place or without what it needs: their types, where among them the
// first one stands with which no stream goes on, and its type. These stand in the place of ONE_RECTANGLE's element,
// up to its ENDEL.
static WRONG_ELEMENTS: &[Row] = &[
    // a boundary
    (&[LAYER, DATATYPE, XY], 0, LAYER),
    (&[BOUNDARY, DATATYPE, XY], 4, DATATYPE),
    (&[BOUNDARY, LAYER, XY], 10, XY),
    (&[BOUNDARY, LAYER, DATATYPE], 16, ENDEL),
    (&[LAYER, BOUNDARY, DATATYPE, XY], 0, LAYER),
    (&[BOUNDARY, DATATYPE, LAYER, XY], 4, DATATYPE),
    (&[BOUNDARY, LAYER, XY, DATATYPE], 10, XY),
    (&[BOUNDARY, LAYER, TEXTTYPE, XY], 10, TEXTTYPE),
    (&[BOUNDARY, LAYER, DATATYPE, WIDTH, XY], 16, WIDTH),
    // what stands at an element's head
    (&[ELFLAGS, BOUNDARY, LAYER, DATATYPE, XY], 0, ELFLAGS),
    (&[BOUNDARY, PLEX, ELFLAGS, LAYER], 12, ELFLAGS),
    (&[PATH, ELFLAGS, ELFLAGS, LAYER], 10, ELFLAGS),
    (&[SREF, PLEX, PLEX, SNAME, XY], 12, PLEX),
    (&[AREF, SNAME, ELFLAGS, COLROW, XY], 10, ELFLAGS),
    (&[TEXT, LAYER, PLEX, TEXTTYPE, XY, STRING], 10, PLEX),
    (&[NODE, PLEX, ELFLAGS, LAYER, NODETYPE], 12, ELFLAGS),
    (&[BOX, LAYER, PLEX, BOXTYPE, XY], 10, PLEX),
    // a path
    (&[PATH, DATATYPE, XY], 4, DATATYPE),
    (&[PATH, LAYER, PATHTYPE, XY], 10, PATHTYPE),
    (&[PATH, LAYER, DATATYPE, WIDTH], 24, ENDEL),
    (&[PATH, DATATYPE, LAYER, XY], 4, DATATYPE),
    (&[PATH, LAYER, PATHTYPE, DATATYPE, XY], 10, PATHTYPE),
    (&[PATH, LAYER, DATATYPE, WIDTH, PATHTYPE], 24, PATHTYPE),
    (&[PATH, LAYER, DATATYPE, BGNEXTN, WIDTH, XY], 24, WIDTH),
    (&[PATH, LAYER, DATATYPE, ENDEXTN, BGNEXTN], 24, BGNEXTN),
    (&[PATH, LAYER, DATATYPE, XY, ENDEXTN], 60, ENDEXTN),
    (&[PATH, LAYER, DATATYPE, STRANS, XY], 16, STRANS),
    // a reference
    (&[SREF, XY], 4, XY),
    (&[SREF, SNAME], 10, ENDEL),
    (&[SREF, XY, SNAME], 4, XY),
    (&[SREF, STRANS, SNAME, XY], 4, STRANS),
    (&[SREF, SNAME, XY, STRANS], 22, STRANS),
    (&[SREF, SNAME, COLROW, XY], 10, COLROW),
    (&[SREF, LAYER, SNAME, XY], 4, LAYER),
    // a turn
    (&[SREF, SNAME, MAG, XY], 10, MAG),
    (&[SREF, SNAME, ANGLE, XY], 10, ANGLE),
    (&[SREF, SNAME, MAG, STRANS, XY], 10, MAG),
    (&[SREF, SNAME, STRANS, ANGLE, MAG, XY], 28, MAG),
    (&[SREF, SNAME, STRANS, STRANS, XY], 16, STRANS),
    (&[AREF, SNAME, ANGLE, COLROW, XY], 10, ANGLE),
    (&[AREF, SNAME, STRANS, ANGLE, MAG, COLROW], 28, MAG),
    (&[TEXT, LAYER, TEXTTYPE, MAG, XY, STRING], 16, MAG),
    (&[TEXT, LAYER, TEXTTYPE, ANGLE, STRANS, XY], 16, ANGLE),
    // an array
    (&[AREF, COLROW, XY], 4, COLROW),
    (&[AREF, SNAME, XY], 10, XY),
    (&[AREF, SNAME, COLROW], 18, ENDEL),
    (&[AREF, COLROW, SNAME, XY], 4, COLROW),
    (&[AREF, STRANS, SNAME, COLROW, XY], 4, STRANS),
    (&[AREF, SNAME, COLROW, STRANS, XY], 18, STRANS),
    (&[AREF, SNAME, XY, COLROW], 10, XY),
    // a text
    (&[TEXT, TEXTTYPE, XY, STRING], 4, TEXTTYPE),
    (&[TEXT, LAYER, XY, STRING], 10, XY),
    (&[TEXT, LAYER, TEXTTYPE, STRING], 16, STRING),
    (&[TEXT, LAYER, TEXTTYPE, XY], 28, ENDEL),
    (&[TEXT, TEXTTYPE, LAYER, XY, STRING], 4, TEXTTYPE),
    (&[TEXT, LAYER, PRESENTATION, TEXTTYPE], 10, PRESENTATION),
    (&[TEXT, LAYER, WIDTH, TEXTTYPE, XY, STRING], 10, WIDTH),
    (&[TEXT, LAYER, TEXTTYPE, WIDTH, PATHTYPE], 24, PATHTYPE),
    (&[TEXT, LAYER, TEXTTYPE, STRANS, WIDTH, XY], 22, WIDTH),
    (&[TEXT, LAYER, TEXTTYPE, XY, STRANS, STRING], 28, STRANS),
    (&[TEXT, LAYER, TEXTTYPE, STRING, XY], 16, STRING),
    (&[TEXT, LAYER, DATATYPE, XY, STRING], 10, DATATYPE),
    (&[TEXT, LAYER, TEXTTYPE, BGNEXTN, XY], 16, BGNEXTN),
    (
        &[TEXT, LAYER, TEXTTYPE, PATHTYPE, PRESENTATION, XY, STRING],
        22,
        PRESENTATION,
    ),
    // a node
    (&[NODE, NODETYPE, XY], 4, NODETYPE),
    (&[NODE, LAYER, XY], 10, XY),
    (&[NODE, LAYER, NODETYPE], 16, ENDEL),
    (&[NODE, NODETYPE, LAYER, XY], 4, NODETYPE),
    (&[NODE, LAYER, XY, NODETYPE], 10, XY),
    (&[NODE, LAYER, DATATYPE, XY], 10, DATATYPE),
    // a box
    (&[BOX, BOXTYPE, XY], 4, BOXTYPE),
    (&[BOX, LAYER, XY], 10, XY),
    (&[BOX, LAYER, BOXTYPE], 16, ENDEL),
    (&[BOX, BOXTYPE, LAYER, XY], 4, BOXTYPE),
    (&[BOX, LAYER, XY, BOXTYPE], 10, XY),
    (&[BOX, LAYER, DATATYPE, XY], 10, DATATYPE),
    // properties, and an element's end
    (&[BOX, LAYER, BOXTYPE, XY, PROPVALUE], 60, PROPVALUE),
    (&[BOX, LAYER, BOXTYPE, XY, PROPATTR], 66, ENDEL),
    (
        &[BOX, LAYER, BOXTYPE, XY, PROPVALUE, PROPATTR],
        60,
        PROPVALUE,
    ),
    (&[BOX, LAYER, BOXTYPE, XY, PROPATTR, PROPATTR], 66, PROPATTR),
    (
        &[BOX, LAYER, BOXTYPE, PROPATTR, PROPVALUE, XY],
        16,
        PROPATTR,
    ),
    (&[BOX, LAYER, BOXTYPE, XY, ENDEL, PROPATTR], 64, PROPATTR),
    (&[BOX, LAYER, BOXTYPE, XY, BOX, LAYER, BOXTYPE, XY], 60, BOX),
    (&[BOX, LAYER, BOXTYPE, XY, ENDSTR], 60, ENDSTR),
    (&[BOX, LAYER, BOXTYPE, XY, ENDEL], 64, ENDEL),
];

// These stand in the place of ONE_RECTANGLE's structure.
static WRONG_STRUCTURES: &[Row] = &[
    (&[STRNAME, ENDSTR], 0, STRNAME),
    (&[BGNSTR, ENDSTR], 28, ENDSTR),
    (&[BGNSTR, STRNAME], 34, ENDLIB),
    (&[STRNAME, BGNSTR, ENDSTR], 0, STRNAME),
    (&[BGNSTR, ENDSTR, STRNAME], 28, ENDSTR),
    (&[BGNSTR, STRNAME, ENDLIB, ENDSTR], 34, ENDLIB),
    (&[BGNSTR, STRNAME, STRNAME, ENDSTR], 34, STRNAME),
    (&[BGNSTR, STRNAME, BGNSTR, STRNAME, ENDSTR], 34, BGNSTR),
    (&[BGNSTR, STRNAME, ENDSTR, ENDSTR], 38, ENDSTR),
    (&[BGNSTR, STRNAME, LAYER, ENDSTR], 34, LAYER),
    (&[BGNSTR, BOX, LAYER, BOXTYPE, XY, ENDEL, STRNAME], 28, BOX),
    (&[BGNSTR, STRNAME, ENDSTR, BOX, LAYER, BOXTYPE, XY], 38, BOX),
    (&[BOX, LAYER, BOXTYPE, XY, ENDEL], 0, BOX),
    (&[BGNSTR, REFLIBS, STRNAME, ENDSTR], 28, REFLIBS),
    (&[BGNSTR, STRNAME, BOX, REFLIBS, LAYER], 38, REFLIBS),
    (&[BGNSTR, STRNAME, ENDSTR, REFLIBS], 38, REFLIBS),
    (&[REFLIBS, BGNSTR, STRNAME, ENDSTR], 0, REFLIBS),
];

// These are all that stands before an ENDLIB.
static WRONG_STREAMS: &[Row] = &[
    (&[BGNLIB, LIBNAME, UNITS_TYPE], 0, BGNLIB),
    (&[HEADER, LIBNAME, UNITS_TYPE], 6, LIBNAME),
    (&[HEADER, BGNLIB, UNITS_TYPE], 34, UNITS_TYPE),
    (&[HEADER, BGNLIB, LIBNAME], 40, ENDLIB),
    (&[HEADER, BGNLIB, LIBNAME, BGNSTR, STRNAME], 40, BGNSTR),
    (&[BGNLIB, HEADER, LIBNAME, UNITS_TYPE], 0, BGNLIB),
    (&[HEADER, LIBNAME, BGNLIB, UNITS_TYPE], 6, LIBNAME),
    (&[HEADER, BGNLIB, UNITS_TYPE, LIBNAME], 34, UNITS_TYPE),
    (&[HEADER, BGNLIB, LIBNAME, ENDLIB, UNITS_TYPE], 40, ENDLIB),
    (&[REFLIBS, HEADER, BGNLIB, LIBNAME], 0, REFLIBS),
    (&[HEADER, REFLIBS, BGNLIB, LIBNAME], 6, REFLIBS),
    (&[HEADER, BGNLIB, REFLIBS, UNITS_TYPE], 40, UNITS_TYPE),
    (&[HEADER, BGNLIB, LIBNAME, REFLIBS], 46, ENDLIB),
];

fn unexpected(front: usize, offset: u16, code: u8) -> Option<(u64, Cause)>
    requires { front ≤ 170 }
{
    Some((front as u64 + offset as u64, Cause::Unexpected { code }))
}

// The number of the first row whose records, in the place of ONE_RECTANGLE's bytes from one place to another, aren't refused
// as it says; None where all are.
fn first_let_through(
    alloc: Global,
    rows: &[Row],
    front: usize,
    end: usize,
) -> Result<Option<usize>, Fail>
    requires front { front ≤ 170 }
    requires end { end ≤ 170 }
{
    for (i, (codes, offset, code)) in rows.iter().enumerate() {
        let piece = records(alloc, codes)?;
        if refusal_with(alloc, front, &piece, end)? != unexpected(front, *offset, *code) {
            return Ok(Some(i));
        }
    }
    Ok(None)
}

#[test]
fn refuses_elements_in_wrong_orders(rt: HostRuntime) -> Result<(), Fail> {
    assert_eq!(rt;
        first_let_through(rt.alloc(), WRONG_ELEMENTS, 98, 158)?,
        None
    );
    Ok(())
}

#[test]
fn refuses_structures_in_wrong_orders(rt: HostRuntime) -> Result<(), Fail> {
    assert_eq!(rt;
        first_let_through(rt.alloc(), WRONG_STRUCTURES, 62, 166)?,
        None
    );
    Ok(())
}

#[test]
fn refuses_streams_in_wrong_orders(rt: HostRuntime) -> Result<(), Fail> {
    assert_eq!(rt; first_let_through(rt.alloc(), WRONG_STREAMS, 0, 166)?, None);
    Ok(())
}
