//! Slabs of polygons, rectangles of paths, and where steps move rectangles.
use gds_slabs::{
    PathEnd, Step, is_closed, is_path_width, is_slanted, moved_rect, path_count, path_rects,
    slab_count, slabs,
};
use rt_base::{Orient, Point, Rect};
use std::alloc::Global;
use std::test::Fail;

type Corners = &'static [(i32, i32)];

type Sides = &'static [(i64, i64, i64, i64)];

// The points of polygons, and the rectangles (x1, y1, x2, y2) that they become.
static POLYGONS: [(&str, Corners, Sides); 10] = [
    (
        "an L",
        &[(0, 0), (4, 0), (4, 1), (1, 1), (1, 3), (0, 3), (0, 0)],
        &[(0, 0, 4, 1), (0, 1, 1, 3)],
    ),
    (
        "a U",
        &[
            (0, 0),
            (5, 0),
            (5, 3),
            (4, 3),
            (4, 1),
            (1, 1),
            (1, 3),
            (0, 3),
            (0, 0),
        ],
        &[(0, 0, 5, 1), (0, 1, 1, 3), (4, 1, 5, 3)],
    ),
    (
        "two squares that touch at a corner",
        &[(0, 0), (2, 0), (2, 4), (4, 4), (4, 2), (0, 2), (0, 0)],
        &[(0, 0, 2, 2), (2, 2, 4, 4)],
    ),
    (
        "one that runs back over an edge",
        &[(0, 0), (2, 0), (2, 2), (6, 2), (2, 2), (0, 2), (0, 0)],
        &[(0, 0, 2, 2)],
    ),
    (
        "a ring with a keyhole",
        &[
            (0, 0),
            (6, 0),
            (6, 6),
            (0, 6),
            (0, 4),
            (2, 4),
            (4, 4),
            (4, 2),
            (2, 2),
            (2, 4),
            (0, 4),
            (0, 0),
        ],
        &[(0, 0, 6, 2), (0, 2, 2, 4), (4, 2, 6, 4), (0, 4, 6, 6)],
    ),
    (
        "a spike",
        &[
            (0, 0),
            (2, 0),
            (2, 2),
            (1, 2),
            (1, 5),
            (1, 2),
            (0, 2),
            (0, 0),
        ],
        &[(0, 0, 2, 2)],
    ),
    (
        "repeated points, and one on a side, which cuts there",
        &[
            (0, 0),
            (0, 0),
            (3, 0),
            (3, 1),
            (3, 2),
            (3, 2),
            (0, 2),
            (0, 0),
        ],
        &[(0, 0, 3, 1), (0, 1, 3, 2)],
    ),
    ("all on one row", &[(0, 0), (3, 0), (1, 0), (0, 0)], &[]),
    ("all on one column", &[(0, 0), (0, 3), (0, 1), (0, 0)], &[]),
    ("one point", &[(7, 7)], &[]),
];

// The points of paths, their widths and ends, and the rectangles that they become.
static PATHS: [(&str, Corners, i32, PathEnd, Sides); 5] = [
    (
        "square ends",
        &[(0, 0), (10, 0), (10, 10)],
        4,
        PathEnd::Square,
        &[
            (0, -2, 10, 2),
            (8, 0, 12, 10),
            (8, -2, 12, 2),
            (-2, -2, 2, 2),
            (8, 8, 12, 12),
        ],
    ),
    (
        "flush ends, and a width below 0",
        &[(0, 0), (10, 0), (10, 10)],
        -4,
        PathEnd::Flush,
        &[(0, -2, 10, 2), (8, 0, 12, 10), (8, -2, 12, 2)],
    ),
    (
        "a repeated point, and back",
        &[(0, 0), (6, 0), (6, 0), (2, 0)],
        2,
        PathEnd::Flush,
        &[(0, -1, 6, 1), (2, -1, 6, 1), (5, -1, 7, 1), (5, -1, 7, 1)],
    ),
    (
        "no length, flush",
        &[(3, 3), (3, 3)],
        2,
        PathEnd::Flush,
        &[],
    ),
    (
        "no length, square",
        &[(3, 3), (3, 3)],
        2,
        PathEnd::Square,
        &[(2, 2, 4, 4), (2, 2, 4, 4)],
    ),
];

// Reflected or not, the quarters, and what the rectangle (1, 2, 4, 3) becomes, shifted by (100, 10).
const STEPS: [(bool, u8, (i64, i64, i64, i64)); 8] = [
    (false, 0, (101, 12, 104, 13)),
    (false, 1, (97, 11, 98, 14)),
    (false, 2, (96, 7, 99, 8)),
    (false, 3, (102, 6, 103, 9)),
    (true, 0, (101, 7, 104, 8)),
    (true, 1, (102, 11, 103, 14)),
    (true, 2, (96, 12, 99, 13)),
    (true, 3, (97, 6, 98, 9)),
];

const RECT: Rect = Rect {
    x1: 1,
    y1: 2,
    x2: 4,
    y2: 3,
};

fn points_at(alloc: Global, corners: &[(i32, i32)]) -> Result<Vec<Point>, Fail> {
    let points = corners
        .iter()
        .map(|(x, y)| Point { x: *x, y: *y })
        .collect(alloc)?;
    Ok(points)
}

fn are_at(rects: &[Rect], sides: &[(i64, i64, i64, i64)]) -> bool {
    rects.len() == sides.len()
        && rects.iter().zip(sides).all(|(r, (x1, y1, x2, y2))| r.x1 == *x1
            && r.y1 == *y1
            && r.x2 == *x2
            && r.y2 == *y2)
}

// Whether the polygon becomes these rectangles, and as many are counted.
fn polygon_becomes(
    alloc: Global,
    corners: &[(i32, i32)],
    want: &[(i64, i64, i64, i64)],
) -> Result<bool, Fail> {
    let points = points_at(alloc, corners)?;
    let line = points.as_slice();
    if !is_closed(line) || is_slanted(line) {
        return Ok(false);
    }
    let rects = slabs(alloc, line)?;
    let count = slab_count(alloc, line)?;
    Ok(are_at(rects.as_slice(), want) && count == want.len() as u64)
}

#[test]
fn polygons_become_the_rectangles_of_their_rows(rt: HostRuntime) -> Result<(), Fail> {
    for (name, corners, want) in &POLYGONS {
        assert!(rt; polygon_becomes(rt.alloc(), corners, want)?, "{name}");
    }
    Ok(())
}

// Whether the path becomes these rectangles, and as many are counted.
fn path_becomes(
    alloc: Global,
    corners: &[(i32, i32)],
    width: i32,
    end: PathEnd,
    want: &[(i64, i64, i64, i64)],
) -> Result<bool, Fail> {
    let points = points_at(alloc, corners)?;
    let line = points.as_slice();
    if line.len() < 2 || !is_path_width(width) {
        return Ok(false);
    }
    let rects = path_rects(alloc, line, width, end)?;
    Ok(are_at(rects.as_slice(), want) && path_count(line, end) == want.len() as u64)
}

#[test]
fn paths_become_their_segments_and_squares(rt: HostRuntime) -> Result<(), Fail> {
    for (name, corners, width, end, want) in &PATHS {
        assert!(rt;
            path_becomes(rt.alloc(), corners, *width, *end, want)?,
            "{name}"
        );
    }
    Ok(())
}

#[test]
fn steps_reflect_then_turn_then_shift(rt: HostRuntime) {
    for (reflect, quarters, want) in STEPS {
        assert!(rt; quarters < 4);
        let step = Step {
            orient: Orient { reflect, quarters },
            dx: 100,
            dy: 10,
        };
        let r = moved_rect(&step, &RECT);
        assert_eq!(rt; (r.x1, r.y1, r.x2, r.y2), want, "at {reflect}, {quarters}");
    }
}

// The points of lines, whether they are closed, and whether a side is slanted.
static LINES: [(Corners, bool, bool); 3] = [
    (&[(0, 0), (2, 0), (2, 2), (0, 0)], true, true),
    (&[(0, 0), (2, 0), (2, 2), (0, 2)], false, false),
    (&[(0, 0), (2, 0), (2, 0), (0, 0)], true, false),
];

#[test]
fn tells_closed_and_slanted_lines(rt: HostRuntime) -> Result<(), Fail> {
    for (corners, closed, slanted) in &LINES {
        let points = points_at(rt.alloc(), corners)?;
        assert_eq!(rt; is_closed(points.as_slice()), *closed);
        assert_eq!(rt; is_slanted(points.as_slice()), *slanted);
    }
    Ok(())
}

#[test]
fn tells_widths_that_paths_may_have(rt: HostRuntime) {
    for (width, want) in [(0, false), (3, false), (-2, true), (i32::MIN, true)] {
        assert_eq!(rt; is_path_width(width), want, "{width}");
    }
}
