//! What is drawn of structures, in order.
use crate::parts::{
    AS_IT_IS, Corners, NO_TURN, ONE, Part, Parts, QUARTER, Turn, flattened, push_parts,
};
use crate::shelf::{HERE, push_shelf};
use gds_stream::Structure;
use rt_base::Rect;
use rt_layout::{Label, Layout};
use std::alloc::Global;
use std::test::Fail;

type Sides = &'static [(i64, i64, i64, i64)];

type Spots = &'static [(i64, i64)];

const HALF: [u8; 8] = [0x42, 0xb4, 0, 0, 0, 0, 0, 0];

const THREE: [u8; 8] = [0x43, 0x10, 0xe0, 0, 0, 0, 0, 0];

// Quarter turns, and the same after a reflection.
const ONE_QUARTER: Turn = (0, ONE, QUARTER);

const TWO_QUARTERS: Turn = (0, ONE, HALF);

const THREE_QUARTERS: Turn = (0, ONE, THREE);

const REFLECTED: Turn = (0x8000, ONE, NO_TURN);

const REFLECTED_ONE_QUARTER: Turn = (0x8000, ONE, QUARTER);

const REFLECTED_TWO_QUARTERS: Turn = (0x8000, ONE, HALF);

const REFLECTED_THREE_QUARTERS: Turn = (0x8000, ONE, THREE);

// 10 wide and 4 high.
const BAR: Corners = &[(0, 0), (10, 0), (10, 4), (0, 4), (0, 0)];

const SMALL: Corners = &[(0, 0), (4, 0), (4, 2), (0, 2), (0, 0)];

const ELL: Corners = &[(0, 0), (3, 0), (3, 1), (1, 1), (1, 2), (0, 2), (0, 0)];

const CORNER: Corners = &[(0, 0), (10, 0), (10, 10)];

// Structures, the rectangles (x1, y1, x2, y2) that A draws on the two masks, and where its labels are, in order.
static DRAWN: [(&str, Parts, [Sides; 2], Spots); 9] = [
    (
        "reflected and turned, and an array",
        &[
            (
                b"A",
                &[
                    Part::Once(b"C", REFLECTED_ONE_QUARTER, (100, 0)),
                    Part::Rows(b"C", AS_IT_IS, (3, 2), [(0, 20), (60, 20), (0, 60)]),
                ],
            ),
            (b"C", &[Part::Shape(1, 0, BAR)]),
        ],
        [
            &[
                (100, 0, 104, 10),
                (0, 20, 10, 24),
                (20, 20, 30, 24),
                (40, 20, 50, 24),
                (0, 40, 10, 44),
                (20, 40, 30, 44),
                (40, 40, 50, 44),
            ],
            &[],
        ],
        &[],
    ),
    (
        "an array of what is turned, whose steps go up to the left and down to the right",
        &[
            (
                b"A",
                &[Part::Rows(b"C", ONE_QUARTER, (2, 2), [(5, 5), (-9, 11), (7, -3)])],
            ),
            (b"C", &[Part::Shape(1, 0, BAR)]),
        ],
        [
            &[
                (1, 5, 5, 15),
                (-6, 8, -2, 18),
                (2, 1, 6, 11),
                (-5, 4, -1, 14),
            ],
            &[],
        ],
        &[],
    ),
    (
        "a turn inside a reflection",
        &[
            (b"A", &[Part::Once(b"B", REFLECTED, (0, 5))]),
            (b"B", &[Part::Once(b"C", ONE_QUARTER, (10, 0))]),
            (b"C", &[Part::Note(1, 5, (1, 2)), Part::Shape(1, 0, BAR)]),
        ],
        [&[(6, -5, 10, 5)], &[]],
        &[(8, 4)],
    ),
    (
        "all orientations of an L",
        &[
            (
                b"A",
                &[
                    Part::Once(b"C", AS_IT_IS, (10, 20)),
                    Part::Once(b"C", ONE_QUARTER, (10, 20)),
                    Part::Once(b"C", TWO_QUARTERS, (10, 20)),
                    Part::Once(b"C", THREE_QUARTERS, (10, 20)),
                    Part::Once(b"C", REFLECTED, (10, 20)),
                    Part::Once(b"C", REFLECTED_ONE_QUARTER, (10, 20)),
                    Part::Once(b"C", REFLECTED_TWO_QUARTERS, (10, 20)),
                    Part::Once(b"C", REFLECTED_THREE_QUARTERS, (10, 20)),
                ],
            ),
            (b"C", &[Part::Shape(1, 0, ELL)]),
        ],
        [
            &[
                (10, 20, 13, 21),
                (10, 21, 11, 22),
                (9, 20, 10, 23),
                (8, 20, 9, 21),
                (7, 19, 10, 20),
                (9, 18, 10, 19),
                (10, 17, 11, 20),
                (11, 19, 12, 20),
                (10, 19, 13, 20),
                (10, 18, 11, 19),
                (10, 20, 11, 23),
                (11, 20, 12, 21),
                (7, 20, 10, 21),
                (9, 21, 10, 22),
                (9, 17, 10, 20),
                (8, 19, 9, 20),
            ],
            &[],
        ],
        &[],
    ),
    (
        "a path with square ends",
        &[(b"A", &[Part::Line(2, 4, CORNER)])],
        [
            &[
                (0, -2, 10, 2),
                (8, 0, 12, 10),
                (8, -2, 12, 2),
                (-2, -2, 2, 2),
                (8, 8, 12, 12),
            ],
            &[],
        ],
        &[],
    ),
    (
        "a path with flush ends",
        &[(b"A", &[Part::Line(0, 4, CORNER)])],
        [&[(0, -2, 10, 2), (8, 0, 12, 10), (8, -2, 12, 2)], &[]],
        &[],
    ),
    (
        "a reference turned and an array in a row, on both masks, and labels",
        &[
            (
                b"A",
                &[
                    Part::Once(b"C", ONE_QUARTER, (10, 20)),
                    Part::Rows(b"C", AS_IT_IS, (2, 1), [(0, 0), (20, 0), (0, -6)]),
                ],
            ),
            (
                b"C",
                &[
                    Part::Shape(1, 0, SMALL),
                    Part::Shape(2, 0, SMALL),
                    Part::Shape(9, 0, SMALL),
                    Part::Note(1, 5, (1, 1)),
                ],
            ),
        ],
        [
            &[(8, 20, 10, 24), (0, 0, 4, 2), (10, 0, 14, 2)],
            &[(8, 20, 10, 24), (0, 0, 4, 2), (10, 0, 14, 2)],
        ],
        &[(9, 21), (1, 1), (11, 1)],
    ),
    (
        "a chain of 64",
        &[(b"A", &[Part::Once(b"L!", AS_IT_IS, (1, 0))])],
        [&[(63, 0, 67, 2)], &[]],
        &[],
    ),
    (
        "many places of nothing",
        &[(
            b"A",
            &[Part::Rows(b"nothing", AS_IT_IS, (32767, 32767), HERE)],
        )],
        [&[], &[]],
        &[],
    ),
];

fn are_at(rects: &[Rect], sides: &[(i64, i64, i64, i64)]) -> bool {
    rects.len() == sides.len()
        && rects.iter().zip(sides).all(|(r, (x1, y1, x2, y2))| r.x1 == *x1
            && r.y1 == *y1
            && r.x2 == *x2
            && r.y2 == *y2)
}

// Whether a label is that of a part on the first mask, at the spot.
fn is_label_at(label: &Label, spot: &(i64, i64)) -> bool {
    label.mask == 0
        && label.at.0 == spot.0
        && label.at.1 == spot.1
        && label.text.as_slice() == b"in".as_slice()
}

fn are_labels_at(labels: &[Label], spots: &[(i64, i64)]) -> bool {
    labels.len() == spots.len() && labels.iter().zip(spots).all(|(l, s)| is_label_at(l, s))
}

// Whether there are these rectangles on two masks, and these labels, in order.
fn is_drawn(layout: &Layout, sides: &[Sides; 2], spots: &[(i64, i64)]) -> bool {
    match layout.masks.as_slice() {
        [low, high] => {
            are_at(low.as_slice(), sides[0])
                && are_at(high.as_slice(), sides[1])
                && are_labels_at(layout.labels.as_slice(), spots)
        }
        _ => false,
    }
}

// Appends the structures of the parts, and the shelf.
fn push_all(alloc: Global, structures: &mut Vec<Structure>, parts: Parts) -> Result<(), Fail> {
    push_parts(alloc, structures, parts)?;
    push_shelf(alloc, structures)
}

// What A of the parts is drawn as, beside the shelf.
fn drawn(alloc: Global, parts: Parts) -> Result<Layout, Fail> {
    let mut structures = Vec::new(alloc);
    push_all(alloc, &mut structures, parts)?;
    Ok(flattened(alloc, structures, false)?.ok().ok_or("refused")?)
}

#[test]
fn draws_in_order(rt: HostRuntime) -> Result<(), Fail> {
    for (name, parts, sides, spots) in &DRAWN {
        assert!(rt;
            is_drawn(&drawn(rt.alloc(), parts)?, sides, spots),
            "{name}"
        );
    }
    Ok(())
}
