//! Turns, gaps, texts, lists and the ledger of pivots.
use crate::builders::text;
use rt_base::{Cell, List, Orient, OutOfMemory, Pivots, Rect, gap_x, gap_y, turn};
use std::test::Fail;

// What each orientation makes of the point (3, 1): reflected or not, the quarters, and the point that it comes to.
static TURNS: [(bool, u8, (i64, i64)); 8] = [
    (false, 0, (3, 1)),
    (false, 1, (-1, 3)),
    (false, 2, (-3, -1)),
    (false, 3, (1, -3)),
    (true, 0, (3, -1)),
    (true, 1, (1, 3)),
    (true, 2, (-3, 1)),
    (true, 3, (-1, -3)),
];

#[test]
fn turns_a_point_in_eight_ways(rt: HostRuntime) {
    for (reflect, quarters, want) in &TURNS {
        assert!(rt; *quarters < 4);
        let orient = Orient {
            reflect: *reflect,
            quarters: *quarters,
        };
        assert_eq!(rt; turn(orient, (3, 1)), *want, "at {reflect}, {quarters}");
    }
}

// A rectangle, and how many columns and rows lie between it and the square (0, 0)-(4, 4): beside it, with common cells,
// at a corner, apart on both axes.
const GAPS: [(Rect, i64, i64); 4] = [
    (
        Rect {
            x1: 7,
            y1: 0,
            x2: 9,
            y2: 4,
        },
        3,
        0,
    ),
    (
        Rect {
            x1: 2,
            y1: 1,
            x2: 9,
            y2: 3,
        },
        0,
        0,
    ),
    (
        Rect {
            x1: 4,
            y1: 4,
            x2: 6,
            y2: 5,
        },
        0,
        0,
    ),
    (
        Rect {
            x1: -8,
            y1: -9,
            x2: -2,
            y2: -6,
        },
        2,
        6,
    ),
];

#[test]
fn counts_columns_and_rows_between_rectangles(rt: HostRuntime) {
    let square = Rect {
        x1: 0,
        y1: 0,
        x2: 4,
        y2: 4,
    };
    for (other, across, upwards) in &GAPS {
        assert_eq!(rt;
            (gap_x(&square, other), gap_y(&square, other)),
            (*across, *upwards)
        );
        assert_eq!(rt;
            (gap_x(other, &square), gap_y(other, &square)),
            (*across, *upwards)
        );
    }
}

#[test]
fn a_text_is_of_printable_bytes(rt: HostRuntime) -> Result<(), Fail> {
    let ends = text(rt.alloc(), &[32, 126])?.ok_or("both are printable")?;
    assert_eq!(rt; ends.as_slice(), [32, 126].as_slice());
    assert_eq!(rt; ends.copy(rt.alloc())?.as_slice(), [32, 126].as_slice());
    assert!(rt; text(rt.alloc(), &[])?.is_some());
    assert!(rt; text(rt.alloc(), &[65, 31])?.is_none());
    assert!(rt; text(rt.alloc(), &[127, 65])?.is_none());
    Ok(())
}

#[test]
fn a_list_keeps_its_items_in_order(rt: HostRuntime) -> Result<(), Fail> {
    let mut list = List::new(rt.alloc());
    assert!(rt; list.as_slice().is_empty());
    for cell in [Cell { x: 5, y: -1 }, Cell { x: 2, y: 7 }] {
        list.push(cell)?;
    }
    let want = [Cell { x: 5, y: -1 }, Cell { x: 2, y: 7 }];
    assert_eq!(rt; list.as_slice(), want.as_slice());
    Ok(())
}

#[test]
fn the_ledger_counts_pivots(rt: HostRuntime) {
    let mut pivots = Pivots::new();
    assert_eq!(rt; pivots.count(), 0);
    pivots.raise();
    pivots.raise();
    assert_eq!(rt; pivots.count(), 2);
}

#[test]
fn names_what_was_lacking(rt: HostRuntime) -> Result<(), Fail> {
    let said = format!(in rt.alloc(); "{OutOfMemory}")?;
    assert_eq!(rt; said.as_str(), "out of memory");
    Ok(())
}
