//! Structures that stand beside those of each case, to be placed or not.
use crate::parts::{AS_IT_IS, Corners, Part, Parts, of_parts, once, push_parts, structure};
use gds_stream::{Element, Structure};
use std::alloc::Global;
use std::test::Fail;

pub(crate) const HERE: [(i32, i32); 3] = [(0, 0), (0, 0), (0, 0)];

const SQUARE: Corners = &[(0, 0), (4, 0), (4, 4), (0, 4), (0, 0)];

const BAR: Corners = &[(0, 0), (4, 0), (4, 2), (0, 2), (0, 0)];

const CORNER: Corners = &[(0, 0), (9, 0), (9, 9)];

static SHELF: Parts = &[
    (b"nothing", &[]),
    (b"one", &[Part::Shape(1, 0, SQUARE)]),
    (
        b"two",
        &[
            Part::Shape(1, 0, SQUARE),
            Part::Shape(9, 0, SQUARE),
            Part::Shape(1, 0, SQUARE),
        ],
    ),
    (
        b"three labels",
        &[
            Part::Note(1, 5, (0, 0)),
            Part::Note(2, 5, (0, 0)),
            Part::Note(1, 5, (0, 0)),
        ],
    ),
    // A rectangle on each mask and one that is passed over, and a label.
    (
        b"three",
        &[
            Part::Shape(1, 0, BAR),
            Part::Shape(2, 0, BAR),
            Part::Shape(9, 0, BAR),
            Part::Note(1, 5, (1, 1)),
        ],
    ),
    // Three rectangles, five and a label.
    (
        b"nine",
        &[
            Part::Line(0, 2, CORNER),
            Part::Line(2, 2, CORNER),
            Part::Note(1, 5, (0, 0)),
        ],
    ),
    (b"65 by 65", &[Part::Rows(b"one", AS_IT_IS, (65, 65), HERE)]),
    (
        b"2^30",
        &[Part::Rows(b"one", AS_IT_IS, (32767, 32767), HERE)],
    ),
    (
        b"2^60",
        &[Part::Rows(b"2^30", AS_IT_IS, (32767, 32767), HERE)],
    ),
    (b"itself", &[Part::Once(b"itself", AS_IT_IS, (0, 0))]),
    (b"64 in a line", &[Part::Once(b"L!", AS_IT_IS, (0, 0))]),
    (
        b"64 twice",
        &[
            Part::Once(b"D!", AS_IT_IS, (0, 0)),
            Part::Once(b"D!", AS_IT_IS, (0, 0)),
        ],
    ),
];

// The elements that place a structure so many times, 1 to the right.
fn placing(alloc: Global, name: &[u8], times: u8) -> Result<Vec<Element>, Fail> {
    let mut elements = Vec::new(alloc);
    for _ in 0..times {
        elements.push(once(alloc, name, &AS_IT_IS, &(1, 0))?)?;
    }
    Ok(elements)
}

// Appends 63 structures in one another, from the letter with `!` to the letter with `_`: each places the next so many times,
// and the last has the parts.
fn push_line(
    alloc: Global,
    structures: &mut Vec<Structure>,
    letter: u8,
    times: u8,
    last: &[Part],
) -> Result<(), Fail> {
    for i in 0..62 {
        let elements = placing(alloc, &[letter, 34 + i], times)?;
        structures.push(structure(alloc, &[letter, 33 + i], elements)?)?;
    }
    structures.push(of_parts(alloc, &[letter, 95], last)?)?;
    Ok(())
}

// Appends A of the parts, and the shelf.
pub(crate) fn push_beside(
    alloc: Global,
    structures: &mut Vec<Structure>,
    parts: &[Part],
) -> Result<(), Fail> {
    structures.push(of_parts(alloc, b"A", parts)?)?;
    push_shelf(alloc, structures)
}

// Appends the structures.
pub(crate) fn push_shelf(alloc: Global, structures: &mut Vec<Structure>) -> Result<(), Fail> {
    push_parts(alloc, structures, SHELF)?;
    push_line(alloc, structures, 76, 1, &[Part::Shape(1, 0, BAR)])?;
    push_line(alloc, structures, 68, 2, &[])
}
