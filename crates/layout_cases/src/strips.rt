//! The strips of a layout in order, and which of them stand on which.
ghost use Rattle.std.specs.Prelude.{◌≤◌, length, map, IfOk};
ghost use Rattle.rt_strips.specs.Placed.{placed};
ghost use Rattle.rt_strips.specs.StripsOf.{AreStrips};

use crate::builders::{Placing, layout, rect, table};
use rt_strips::{Climbs, Strip, StripError, Strips, strips_of, touching};
use std::alloc::Global;
use std::process::Abort;
use std::test::Fail;

// A case: its name, rectangles, and their strips.
type Case = (&'static str, &'static [Placing], &'static [Placing]);

static CASES: [Case; 13] = [
    ("none", &[], &[]),
    (
        "L",
        &[(0, [0, 0, 10, 10]), (0, [0, 0, 4, 20])],
        &[(0, [0, 0, 10, 10]), (0, [0, 10, 4, 20])],
    ),
    (
        "T",
        &[(0, [0, 6, 10, 10]), (0, [4, 0, 6, 8])],
        &[(0, [4, 0, 6, 6]), (0, [0, 6, 10, 10])],
    ),
    (
        "cross",
        &[(0, [0, 4, 10, 6]), (0, [4, 0, 6, 10])],
        &[(0, [4, 0, 6, 4]), (0, [0, 4, 10, 6]), (0, [4, 6, 6, 10])],
    ),
    (
        "ring",
        &[
            (0, [0, 8, 10, 10]),
            (0, [8, 0, 10, 10]),
            (0, [0, 0, 2, 10]),
            (0, [0, 0, 10, 2]),
        ],
        &[
            (0, [0, 0, 10, 2]),
            (0, [0, 2, 2, 8]),
            (0, [8, 2, 10, 8]),
            (0, [0, 8, 10, 10]),
        ],
    ),
    (
        "comb",
        &[
            (0, [8, 2, 10, 6]),
            (0, [4, 2, 6, 8]),
            (0, [0, 2, 2, 6]),
            (0, [0, 0, 10, 2]),
        ],
        &[
            (0, [0, 0, 10, 2]),
            (0, [0, 2, 2, 6]),
            (0, [4, 2, 6, 8]),
            (0, [8, 2, 10, 6]),
        ],
    ),
    (
        "adjoining",
        &[(0, [0, 4, 9, 7]), (0, [5, 0, 9, 4]), (0, [0, 0, 5, 4])],
        &[(0, [0, 0, 9, 7])],
    ),
    (
        "overlapping",
        &[(0, [3, 3, 9, 9]), (0, [0, 0, 6, 6]), (0, [0, 0, 6, 6])],
        &[(0, [0, 0, 6, 3]), (0, [0, 3, 9, 6]), (0, [3, 6, 9, 9])],
    ),
    (
        "a common corner",
        &[(0, [-4, -4, 0, 0]), (0, [0, 0, 4, 4])],
        &[(0, [-4, -4, 0, 0]), (0, [0, 0, 4, 4])],
    ),
    (
        "two masks",
        &[
            (1, [0, 9, 4, 12]),
            (0, [20, 0, 24, 4]),
            (1, [4, 9, 8, 12]),
            (0, [10, 0, 20, 3]),
        ],
        &[(0, [10, 0, 24, 3]), (0, [20, 3, 24, 4]), (1, [0, 9, 8, 12])],
    ),
    (
        "a channel",
        &[(1, [0, 0, 10, 10]), (0, [4, -2, 6, 12])],
        &[(0, [4, -2, 6, 12]), (1, [0, 0, 10, 10]), (2, [4, 0, 6, 10])],
    ),
    (
        "a bent channel",
        &[(1, [0, -2, 10, 12]), (0, [4, 0, 8, 4]), (0, [4, 4, 6, 10])],
        &[(0, [4, 0, 8, 4]), (0, [4, 4, 6, 10]), (1, [0, -2, 10, 12])],
    ),
    (
        "a bent channel beside two others",
        &[
            (1, [0, 0, 30, 10]),
            (0, [24, -2, 26, 12]),
            (0, [2, -2, 4, 12]),
            (0, [10, 2, 14, 4]),
            (0, [10, 4, 12, 8]),
        ],
        &[
            (0, [2, -2, 4, 12]),
            (0, [24, -2, 26, 12]),
            (0, [10, 2, 14, 4]),
            (0, [10, 4, 12, 8]),
            (1, [0, 0, 30, 10]),
            (2, [2, 0, 4, 10]),
            (2, [24, 0, 26, 10]),
        ],
    ),
];

// Whether these are the strips.
fn are(strips: &[Strip], want: &[Placing]) -> bool {
    strips.len() == want.len()
        && strips.iter().zip(want).all(|(strip, placing)| strip.mask == placing.0
            && rect(placing) == Some(strip.at))
}

#[test]
fn strips_are_whole_runs_in_order(rt: HostRuntime) -> Result<(), Fail> {
    let tech = table(rt.alloc())?;
    for (name, placings, want) in &CASES {
        let layout = layout(rt.alloc(), placings)?;
        assert!(rt; layout.masks.as_slice().len() == 2 && tech.masks.as_slice().len() == 2);
        let count = want.len() as u32;
        let strips = strips_of(rt.alloc(), &layout, &tech, count)?;
        assert!(rt; are(strips.list.as_slice(), want), "{name}");
        if count == 0 {
            continue;
        }
        match strips_of(rt.alloc(), &layout, &tech, count - 1) {
            Err(StripError::TooMany { count: found }) => assert_eq!(rt; found, u64::from(count)),
            _ => assert!(rt; false, "{name}"),
        }
    }
    Ok(())
}

// A staircase, two strips on a third and below a fourth, a common corner, two masks: two numbers of strips, whether the
// second stands on the first, and whether it is climbed from it.
type Climb = (u32, u32, bool, bool);

static CLIMBS: [(&[Placing], &[Climb]); 4] = [
    (
        &[(0, [0, 0, 4, 2]), (0, [3, 2, 8, 4]), (0, [7, 4, 12, 6])],
        &[
            (0, 1, true, true),
            (1, 2, true, true),
            (0, 2, false, true),
            (2, 0, false, false),
            (1, 0, false, false),
            (0, 0, false, false),
        ],
    ),
    (
        &[
            (0, [0, 0, 10, 2]),
            (0, [0, 2, 2, 8]),
            (0, [8, 2, 10, 8]),
            (0, [0, 8, 10, 10]),
        ],
        &[
            (0, 1, true, true),
            (0, 2, true, true),
            (1, 2, false, false),
            (1, 3, true, true),
            (2, 3, true, true),
            (0, 3, false, true),
        ],
    ),
    (
        &[(0, [0, 0, 4, 4]), (0, [4, 4, 8, 8])],
        &[(0, 1, false, false)],
    ),
    (
        &[(0, [0, 0, 4, 4]), (1, [0, 4, 4, 8])],
        &[(0, 1, false, false)],
    ),
];

// The strips of the rectangles.
fn strips(rt: &impl Abort, alloc: Global, placings: &[Placing]) -> Result<Strips, Fail>
    ensures few { IfOk result (λ strips. length strips.list ≤ 100) }
    ensures strips { IfOk result (λ strips. AreStrips (map placed strips.list)) }
{
    let tech = table(alloc)?;
    let layout = layout(alloc, placings)?;
    assert!(rt; layout.masks.as_slice().len() == 2 && tech.masks.as_slice().len() == 2);
    let strips = strips_of(alloc, &layout, &tech, 100)?;
    Ok(strips)
}

#[test]
fn strips_stand_on_others_and_are_climbed(rt: HostRuntime) -> Result<(), Fail> {
    for (placings, pairs) in &CLIMBS {
        let strips = strips(&rt, rt.alloc(), placings)?;
        let climbs = Climbs::of(rt.alloc(), &strips)?;
        let count = strips.list.as_slice().len();
        for (from, to, stands, climbed) in *pairs {
            assert!(rt; (*from as usize) < count && (*to as usize) < count);
            assert_eq!(rt; touching(&strips, *from, *to), *stands, "{from}, {to}");
            assert_eq!(rt; climbs.has(*from, *to), *climbed, "{from}, {to}");
        }
    }
    Ok(())
}
