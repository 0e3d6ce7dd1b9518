//! Which structures are refused, by what, and what is passed over.
use crate::parts::{AS_IT_IS, Corners, NO_TURN, ONE, Part, QUARTER, flattened, of_parts};
use crate::said::{Said, said_of};
use crate::shelf::{HERE, push_beside};
use gds_flat::{FlatError, Odd};
use rt_layout::Layout;
use std::alloc::Global;
use std::test::Fail;

const TWO: [u8; 8] = [0x41, 0x20, 0, 0, 0, 0, 0, 0];

const SLANTED: Corners = &[(0, 0), (4, 0), (2, 3), (0, 0)];

const BAR: Corners = &[(0, 0), (9, 0)];

const FAR: i32 = 2_000_000_000;

// What is in a row, the elements of A, and what is said of A beside the shelf.
static SAID: [(&str, &'static [Part], Said); 62] = [
    // Each odd alone, and of two the first.
    ("a path of type 0", &[Part::Line(0, 2, BAR)], Said::Flat),
    (
        "a path of type 2, of negative width",
        &[Part::Line(2, -2, BAR)],
        Said::Flat,
    ),
    (
        "a path of type 1",
        &[Part::Line(1, 2, BAR)],
        Said::Unsupported(11, Odd::PathType),
    ),
    (
        "a path of type 4",
        &[Part::Line(4, 2, BAR)],
        Said::Unsupported(11, Odd::PathType),
    ),
    (
        "a path of type -2",
        &[Part::Line(-2, 2, BAR)],
        Said::Unsupported(11, Odd::PathType),
    ),
    (
        "a path of width 0",
        &[Part::Line(0, 0, BAR)],
        Said::Unsupported(11, Odd::PathWidth),
    ),
    (
        "a path of width 3",
        &[Part::Line(2, 3, BAR)],
        Said::Unsupported(11, Odd::PathWidth),
    ),
    (
        "a path of width -3",
        &[Part::Line(0, -3, BAR)],
        Said::Unsupported(11, Odd::PathWidth),
    ),
    (
        "a slanted path",
        &[Part::Line(0, 2, SLANTED)],
        Said::Unsupported(11, Odd::Slanted),
    ),
    (
        "a path of type 1 and width 3",
        &[Part::Line(1, 3, BAR)],
        Said::Unsupported(11, Odd::PathType),
    ),
    (
        "a slanted path of type 1",
        &[Part::Line(1, 2, SLANTED)],
        Said::Unsupported(11, Odd::PathType),
    ),
    (
        "a slanted path of width 3",
        &[Part::Line(2, 3, SLANTED)],
        Said::Unsupported(11, Odd::PathWidth),
    ),
    (
        "a box",
        &[Part::Frame(1, 0)],
        Said::Unsupported(12, Odd::BoxElement),
    ),
    (
        "a slanted polygon",
        &[Part::Shape(1, 0, SLANTED)],
        Said::Unsupported(7, Odd::Slanted),
    ),
    (
        "a reflected reference, with a flag that says nothing",
        &[Part::Once(b"nothing", (0x8001, ONE, NO_TURN), (0, 0))],
        Said::Flat,
    ),
    (
        "a reference turned by a quarter",
        &[Part::Once(b"nothing", (0, ONE, QUARTER), (0, 0))],
        Said::Flat,
    ),
    (
        "a reference of magnification 0",
        &[Part::Once(b"nothing", (0, NO_TURN, NO_TURN), (0, 0))],
        Said::Unsupported(8, Odd::Magnification),
    ),
    (
        "a reference of magnification 2 and angle 1",
        &[Part::Once(b"nothing", (0, TWO, ONE), (0, 0))],
        Said::Unsupported(8, Odd::Magnification),
    ),
    (
        "a reference of angle 1",
        &[Part::Once(b"nothing", (0, ONE, ONE), (0, 0))],
        Said::Unsupported(8, Odd::Angle),
    ),
    (
        "a reference of absolute magnification",
        &[Part::Once(b"nothing", (4, ONE, NO_TURN), (0, 0))],
        Said::Unsupported(8, Odd::Absolute),
    ),
    (
        "a reference of absolute angle",
        &[Part::Once(b"nothing", (2, ONE, NO_TURN), (0, 0))],
        Said::Unsupported(8, Odd::Absolute),
    ),
    (
        "a reference of absolute magnification 2",
        &[Part::Once(b"nothing", (4, TWO, NO_TURN), (0, 0))],
        Said::Unsupported(8, Odd::Magnification),
    ),
    (
        "a reference of absolute angle 1",
        &[Part::Once(b"nothing", (2, ONE, ONE), (0, 0))],
        Said::Unsupported(8, Odd::Angle),
    ),
    (
        "an array",
        &[Part::Rows(b"nothing", AS_IT_IS, (1, 1), HERE)],
        Said::Flat,
    ),
    (
        "an array of magnification 2 and angle 1",
        &[Part::Rows(b"nothing", (0, TWO, ONE), (1, 1), HERE)],
        Said::Unsupported(9, Odd::Magnification),
    ),
    (
        "an array of absolute magnification and angle 1",
        &[Part::Rows(b"nothing", (6, ONE, ONE), (1, 1), HERE)],
        Said::Unsupported(9, Odd::Angle),
    ),
    (
        "an array of absolute angle",
        &[Part::Rows(b"nothing", (2, ONE, NO_TURN), (1, 1), HERE)],
        Said::Unsupported(9, Odd::Absolute),
    ),
    (
        "an array of absolute magnification without columns",
        &[Part::Rows(b"nothing", (4, ONE, NO_TURN), (0, 1), HERE)],
        Said::Unsupported(9, Odd::Absolute),
    ),
    // Steps.
    (
        "an array without rows",
        &[Part::Rows(b"nothing", AS_IT_IS, (1, 0), HERE)],
        Said::Steps(9),
    ),
    (
        "an array without columns",
        &[Part::Rows(b"nothing", AS_IT_IS, (0, 3), [(0, 0), (0, 0), (0, -6)])],
        Said::Steps(9),
    ),
    (
        "an array of whole steps",
        &[Part::Rows(b"nothing", AS_IT_IS, (4, 3), [(0, 0), (-8, 0), (0, -6)])],
        Said::Flat,
    ),
    (
        "an array whose rows don't fit their way",
        &[Part::Rows(b"nothing", AS_IT_IS, (4, 4), [(0, 0), (-8, 0), (0, -6)])],
        Said::Steps(9),
    ),
    (
        "an array whose columns don't fit their way upwards",
        &[Part::Rows(b"nothing", AS_IT_IS, (4, 3), [(0, 0), (-8, 2), (0, -6)])],
        Said::Steps(9),
    ),
    // Layers.
    (
        "a slanted polygon on a layer that is passed over",
        &[Part::Shape(9, 0, SLANTED)],
        Said::Flat,
    ),
    (
        "an unmapped layer, an odd of the same element",
        &[Part::Shape(4, 0, SLANTED)],
        Said::Unmapped(4, 0),
    ),
    (
        "an unmapped layer, an odd of a later element",
        &[Part::Shape(4, 0, SLANTED), Part::Shape(1, 0, SLANTED)],
        Said::Unmapped(4, 0),
    ),
    (
        "an odd, an unmapped layer of a later element",
        &[Part::Shape(1, 0, SLANTED), Part::Shape(4, 0, SLANTED)],
        Said::Unsupported(7, Odd::Slanted),
    ),
    (
        "an odd, an array step of the same element",
        &[Part::Rows(b"nothing", (0, TWO, NO_TURN), (0, 1), HERE)],
        Said::Unsupported(9, Odd::Magnification),
    ),
    (
        "an array step, an odd of a later element",
        &[
            Part::Rows(b"nothing", AS_IT_IS, (0, 1), HERE),
            Part::Frame(1, 0),
        ],
        Said::Steps(9),
    ),
    // Names, circles and depth.
    (
        "nothing, beside a circle that isn't reached",
        &[],
        Said::Flat,
    ),
    (
        "a circle",
        &[Part::Once(b"itself", AS_IT_IS, (0, 0))],
        Said::Circle(2),
    ),
    (
        "a circle, and another one later",
        &[
            Part::Once(b"itself", AS_IT_IS, (0, 0)),
            Part::Once(b"A", AS_IT_IS, (0, 0)),
        ],
        Said::Circle(2),
    ),
    (
        "a circle, a missing name later",
        &[
            Part::Once(b"itself", AS_IT_IS, (0, 0)),
            Part::Once(b"X", AS_IT_IS, (0, 0)),
        ],
        Said::Missing,
    ),
    (
        "a circle of A itself, a missing name later",
        &[
            Part::Once(b"A", AS_IT_IS, (0, 0)),
            Part::Once(b"X", AS_IT_IS, (0, 0)),
        ],
        Said::Missing,
    ),
    (
        "too deep, a circle later",
        &[
            Part::Once(b"64 in a line", AS_IT_IS, (0, 0)),
            Part::Once(b"A", AS_IT_IS, (0, 0)),
        ],
        Said::Circle(2),
    ),
    (
        "a chain of 65, an unmapped layer",
        &[
            Part::Shape(4, 0, SLANTED),
            Part::Once(b"64 in a line", AS_IT_IS, (0, 0)),
        ],
        Said::Deep,
    ),
    (
        "a chain of 64 that parts at each, without an end",
        &[
            Part::Once(b"D!", AS_IT_IS, (0, 0)),
            Part::Once(b"D!", AS_IT_IS, (0, 0)),
        ],
        Said::Flat,
    ),
    (
        "a chain of 65 that parts at each",
        &[
            Part::Once(b"64 twice", AS_IT_IS, (0, 0)),
            Part::Once(b"64 twice", AS_IT_IS, (0, 0)),
        ],
        Said::Deep,
    ),
    // Counts.
    (
        "elements, the count",
        &[
            Part::Rows(b"three labels", AS_IT_IS, (16667, 1), HERE),
            Part::Frame(1, 0),
        ],
        Said::Unsupported(12, Odd::BoxElement),
    ),
    (
        "the count, coordinates",
        &[
            Part::Once(b"three labels", AS_IT_IS, (FAR, 0)),
            Part::Rows(b"three labels", AS_IT_IS, (16666, 1), HERE),
        ],
        Said::Many(50_001),
    ),
    (
        "nine rectangles and labels",
        &[Part::Rows(b"three", AS_IT_IS, (3, 1), HERE)],
        Said::Flat,
    ),
    (
        "50,001 rectangles and labels",
        &[Part::Rows(b"three", AS_IT_IS, (16667, 1), HERE)],
        Said::Many(50_001),
    ),
    (
        "all of each place of an array",
        &[Part::Rows(b"two", AS_IT_IS, (251, 100), HERE)],
        Said::Many(50_200),
    ),
    (
        "paths and labels",
        &[Part::Rows(b"nine", AS_IT_IS, (1, 5556), HERE)],
        Said::Many(50_004),
    ),
    (
        "arrays in one another",
        &[Part::Rows(b"65 by 65", AS_IT_IS, (65, 65), HERE)],
        Said::Many(65 * 65 * 65 * 65),
    ),
    (
        "the largest arrays in one another",
        &[Part::Rows(b"2^30", AS_IT_IS, (32767, 32767), HERE)],
        Said::Many(32767 * 32767 * 32767 * 32767),
    ),
    (
        "three such arrays in one another, the end of counts",
        &[Part::Rows(b"2^60", AS_IT_IS, (32767, 32767), HERE)],
        Said::Many(u64::MAX),
    ),
    // Coordinates.
    (
        "coordinates of a label",
        &[Part::Once(b"three labels", AS_IT_IS, (FAR, 0))],
        Said::Far(10),
    ),
    (
        "a thousand million to the right",
        &[Part::Once(b"three", AS_IT_IS, (999_999_996, 0))],
        Said::Flat,
    ),
    (
        "one more",
        &[Part::Once(b"three", AS_IT_IS, (999_999_997, 0))],
        Said::Far(7),
    ),
    (
        "a thousand million down",
        &[Part::Once(b"three", AS_IT_IS, (0, -1_000_000_000))],
        Said::Flat,
    ),
    (
        "one more down",
        &[Part::Once(b"three", AS_IT_IS, (0, -1_000_000_001))],
        Said::Far(7),
    ),
];

// What is said of A, which has these elements, beside the shelf.
fn said_of_parts(alloc: Global, parts: &[Part]) -> Result<Said, Fail> {
    let mut structures = Vec::new(alloc);
    push_beside(alloc, &mut structures, parts)?;
    Ok(said_of(&flattened(alloc, structures, false)?))
}

#[test]
fn refuses_in_order(rt: HostRuntime) -> Result<(), Fail> {
    for (name, parts, want) in &SAID {
        assert!(rt; said_of_parts(rt.alloc(), parts)? == *want, "{name}");
    }
    Ok(())
}

// Layers and numbers without a mask, whether all such pairs are passed over, and whether this one is.
static PAIRS: [(i16, i16, bool, bool); 9] = [
    (9, 0, false, true),
    (9, -7, false, true),
    (8, 3, false, true),
    (8, 4, false, false),
    (8, -1, false, false),
    (1, 3, false, false),
    (8, 4, true, true),
    (1, 3, true, true),
    (-4, 9, true, true),
];

fn is_nothing(answer: &Result<Layout, FlatError>) -> bool {
    match answer {
        Ok(layout) => {
            layout.labels.as_slice().is_empty()
                && layout
                    .masks
                    .as_slice()
                    .iter()
                    .all(|rects| rects.as_slice().is_empty())
        }
        Err(_) => false,
    }
}

// Whether A, which has the part on a layer and a number, is flat and draws nothing, or else is refused for them.
fn is_passed_or_unmapped(
    alloc: Global,
    part: &Part,
    pair: &(i16, i16),
    drop_unlisted: bool,
    is_passed: bool,
) -> Result<bool, Fail> {
    let mut structures = Vec::new(alloc);
    structures.push(of_parts(alloc, b"A", &[*part])?)?;
    let answer = flattened(alloc, structures, drop_unlisted)?;
    if is_passed {
        return Ok(is_nothing(&answer));
    }
    Ok(said_of(&answer) == Said::Unmapped(pair.0, pair.1))
}

#[test]
fn passes_over_pairs(rt: HostRuntime) -> Result<(), Fail> {
    for (layer, number, drop_unlisted, is_passed) in &PAIRS {
        for part in [
            Part::Shape(*layer, *number, SLANTED),
            Part::Frame(*layer, *number),
            Part::Note(*layer, *number, (FAR, 0)),
        ] {
            assert!(rt;
                is_passed_or_unmapped(
                    rt.alloc(),
                    &part,
                    &(*layer, *number),
                    *drop_unlisted,
                    *is_passed
                )?,
                "{layer}, {number}"
            );
        }
    }
    Ok(())
}
