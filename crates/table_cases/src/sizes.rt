//! The first fault of a sizes file, what one without a fault says, and the sizes that it gives to devices.

use crate::forms::TABLE;
use crate::texts::edited;
use rt_base::List;
use rt_keys::TableError;
use rt_sizes::{read_sizes, wishes};
use rt_tables::read_tech;
use rt_tech::{Mirror, Sizes, TableCause, Tech, Which, Wish};
use std::alloc::{AllocError, Global};
use std::test::Fail;

// A sizes file, part by part.
static SIZES: [&str; 7] = [
    "version = 1",
    "cell = \"TOP\"",
    "mirror = \"axis\"",
    "axis = -7",
    "pivots = 100000",
    "kind = [{ name = \"nmos\", length = 10, width = 1000000 }]",
    "device = [{ index = 0, length = 5, width = 15 }, { index = 4294967295, length = 20, width = 25 }]",
];

// The part that is changed, what it says then, the key at fault and what is wrong there. An empty key: no fault.
static SIZES_CASES: [(usize, &str, &str, TableCause); 73] = [
    (0, "version = 1", "", TableCause::Missing),
    (0, "", "version", TableCause::Missing),
    (0, "version = \"1\"", "version", TableCause::Form),
    (0, "version = 2", "version", TableCause::Range),
    (0, "version = 0", "version", TableCause::Range),
    (0, "version = 2\nzoo = 1", "version", TableCause::Range),
    (1, "", "cell", TableCause::Missing),
    (1, "cell = 1", "cell", TableCause::Form),
    (1, "cell = \"\"", "cell", TableCause::Range),
    (1, "cell = \"T\\u00e9\"", "cell", TableCause::Range),
    (1, "cell = \"a\\tb\"", "cell", TableCause::Range),
    (1, "cell = \"~ !\"", "", TableCause::Missing),
    (2, "", "mirror", TableCause::Missing),
    (2, "mirror = 1", "mirror", TableCause::Form),
    (2, "mirror = \"Axis\"", "mirror", TableCause::Range),
    (2, "mirror = \"none\"", "axis", TableCause::Unknown),
    (2, "mirror = \"find\"", "axis", TableCause::Unknown),
    (3, "", "axis", TableCause::Missing),
    (3, "axis = 1.0", "axis", TableCause::Form),
    (3, "axis = 2000000001", "axis", TableCause::Range),
    (3, "axis = -2000000001", "axis", TableCause::Range),
    (3, "axis = 2000000000", "", TableCause::Missing),
    (3, "axis = -2000000000", "", TableCause::Missing),
    (4, "", "", TableCause::Missing),
    (4, "pivots = \"1\"", "pivots", TableCause::Form),
    (4, "pivots = 0", "pivots", TableCause::Range),
    (4, "pivots = 100001", "pivots", TableCause::Range),
    (4, "pivots = 1", "", TableCause::Missing),
    (5, "", "", TableCause::Missing),
    (5, "kind = 1", "kind", TableCause::Form),
    (5, "kind = []", "", TableCause::Missing),
    (5, "kind = [1]", "kind.0", TableCause::Form),
    (
        5,
        "kind = [{ length = 10, width = 1000000 }]",
        "kind.0.name",
        TableCause::Missing,
    ),
    (
        5,
        "kind = [{ name = 1, length = 10, width = 1000000 }]",
        "kind.0.name",
        TableCause::Form,
    ),
    (
        5,
        "kind = [{ name = \"pmos\", length = 10, width = 1000000 }]",
        "kind.0.name",
        TableCause::Name,
    ),
    (
        5,
        "kind = [{ name = \"\", length = 10, width = 1000000 }]",
        "kind.0.name",
        TableCause::Name,
    ),
    (
        5,
        "kind = [{ name = \"ptap\", length = 10, width = 1000000 }]",
        "kind.0.name",
        TableCause::Role,
    ),
    (
        5,
        "kind = [{ name = \"nmos\", length = 10, width = 1000000 }, { name = \"nmos\", length = 10, width = 1000000 }]",
        "kind.1.name",
        TableCause::Duplicate,
    ),
    (
        5,
        "kind = [{ name = \"nmos\", length = 10, width = 1000000 }, { name = \"zmos\", length = 10, width = 1000000 }, { name = \"nmos\", length = 10, width = 1000000 }]",
        "kind.1.name",
        TableCause::Name,
    ),
    (
        5,
        "kind = [{ name = \"nmos\", width = 1000000 }]",
        "kind.0.length",
        TableCause::Missing,
    ),
    (
        5,
        "kind = [{ name = \"nmos\", length = true, width = 1000000 }]",
        "kind.0.length",
        TableCause::Form,
    ),
    (
        5,
        "kind = [{ name = \"nmos\", length = 0, width = 1000000 }]",
        "kind.0.length",
        TableCause::Range,
    ),
    (
        5,
        "kind = [{ name = \"nmos\", length = 11, width = 1000000 }]",
        "kind.0.length",
        TableCause::Range,
    ),
    (
        5,
        "kind = [{ name = \"nmos\", length = 1000005, width = 1000000 }]",
        "kind.0.length",
        TableCause::Range,
    ),
    (
        5,
        "kind = [{ name = \"nmos\", length = 10 }]",
        "kind.0.width",
        TableCause::Missing,
    ),
    (
        5,
        "kind = [{ name = \"nmos\", length = 10, width = [] }]",
        "kind.0.width",
        TableCause::Form,
    ),
    (
        5,
        "kind = [{ name = \"nmos\", length = 10, width = -5 }]",
        "kind.0.width",
        TableCause::Range,
    ),
    (
        5,
        "kind = [{ name = \"nmos\", length = 10, width = 5, zoo = 1, abc = 1 }]",
        "kind.0.abc",
        TableCause::Unknown,
    ),
    (
        5,
        "kind = [{ name = \"nmos\", length = 10, width = 5, index = 1 }]",
        "kind.0.index",
        TableCause::Unknown,
    ),
    (6, "", "", TableCause::Missing),
    (6, "device = 1", "device", TableCause::Form),
    (6, "device = []", "", TableCause::Missing),
    (6, "device = [7]", "device.0", TableCause::Form),
    (
        6,
        "device = [{ index = 0, length = 5, width = 15 }, { length = 20, width = 25 }]",
        "device.1.index",
        TableCause::Missing,
    ),
    (
        6,
        "device = [{ index = 0, length = 5, width = 15 }, { index = 1.5, length = 20, width = 25 }]",
        "device.1.index",
        TableCause::Form,
    ),
    (
        6,
        "device = [{ index = 0, length = 5, width = 15 }, { index = -1, length = 20, width = 25 }]",
        "device.1.index",
        TableCause::Range,
    ),
    (
        6,
        "device = [{ index = 0, length = 5, width = 15 }, { index = 4294967296, length = 20, width = 25 }]",
        "device.1.index",
        TableCause::Range,
    ),
    (
        6,
        "device = [{ index = 0, length = 5, width = 15 }, { index = 0, length = 20, width = 25 }]",
        "device.1.index",
        TableCause::Duplicate,
    ),
    (
        6,
        "device = [{ index = 0, length = 5, width = 15 }, { index = 4294967295, width = 25 }]",
        "device.1.length",
        TableCause::Missing,
    ),
    (
        6,
        "device = [{ index = 0, length = 5, width = 15 }, { index = 4294967295, length = \"5\", width = 25 }]",
        "device.1.length",
        TableCause::Form,
    ),
    (
        6,
        "device = [{ index = 0, length = 5, width = 15 }, { index = 4294967295, length = 0, width = 25 }]",
        "device.1.length",
        TableCause::Range,
    ),
    (
        6,
        "device = [{ index = 0, length = 5, width = 15 }, { index = 4294967295, length = 7, width = 25 }]",
        "device.1.length",
        TableCause::Range,
    ),
    (
        6,
        "device = [{ index = 0, length = 5, width = 15 }, { index = 4294967295, length = 20 }]",
        "device.1.width",
        TableCause::Missing,
    ),
    (
        6,
        "device = [{ index = 0, length = 5, width = 15 }, { index = 4294967295, length = 20, width = 5.0 }]",
        "device.1.width",
        TableCause::Form,
    ),
    (
        6,
        "device = [{ index = 0, length = 5, width = 15 }, { index = 4294967295, length = 20, width = 1000001 }]",
        "device.1.width",
        TableCause::Range,
    ),
    (
        6,
        "device = [{ index = 0, length = 5, width = 15 }, { index = 4294967295, length = 20, width = 25, name = \"nmos\" }]",
        "device.1.name",
        TableCause::Unknown,
    ),
    (
        6,
        "device = [{ index = 0, length = 5, width = 15 }, { index = 4294967295, length = 20, width = 25, \"\\n\" = 1 }]",
        "device.1.?",
        TableCause::Unknown,
    ),
    (
        4,
        "width_most = 5\nzoo = 1\nabc = 1",
        "width_most",
        TableCause::Unknown,
    ),
    (
        4,
        "height_most = 5\noffset = []\nabc = 1",
        "height_most",
        TableCause::Unknown,
    ),
    (4, "offset = []\nabc = 1", "offset", TableCause::Unknown),
    (4, "resistor = []\nabc = 1", "resistor", TableCause::Unknown),
    (4, "zoo = 1\nabc = 1", "abc", TableCause::Unknown),
    (4, "zoo = 1\npivots = 0", "pivots", TableCause::Range),
];

// The target table: its grid is 5, and of its kinds `nmos` is one of devices and `ptap` isn't.
fn target(alloc: Global) -> Option<Tech> {
    let text = edited(alloc, &TABLE, 0, TABLE[0]).ok()?;
    read_tech(alloc, text.as_bytes(), Which::Target).ok()
}

// What the text says as a sizes file for this target, whose grid is one.
fn read(alloc: Global, target: &Tech, bytes: &[u8]) -> Option<Result<Sizes, TableError>> {
    if 1 <= target.grid && target.grid <= 100 {
        Some(read_sizes(alloc, bytes, target))
    } else {
        None
    }
}

// Whether sizes were read as a case says: with this key and this cause, or without a fault where the key is empty.
fn is_as_said(read: &Option<Result<Sizes, TableError>>, key: &str, cause: TableCause) -> bool {
    match read {
        Some(Ok(_)) => key.is_empty(),
        Some(
            Err(
                TableError::BadSizes {
                    key: found,
                    cause: why,
                },
            ),
        ) => !key.is_empty() && found.as_slice() == key.as_bytes() && *why == cause,
        _ => false,
    }
}

// Whether the sizes file with a changed part is read as a case says.
fn is_read(
    alloc: Global,
    target: &Tech,
    case: &(usize, &str, &str, TableCause),
) -> Result<bool, AllocError> {
    let text = edited(alloc, &SIZES, case.0, case.1)?;
    let read = read(alloc, target, text.as_bytes());
    Ok(is_as_said(&read, case.2, case.3))
}

// The place of the first case that isn't read as it says.
fn first_wrong(alloc: Global, target: &Tech) -> Result<Option<usize>, AllocError> {
    for (i, case) in SIZES_CASES.iter().enumerate() {
        if !is_read(alloc, target, case)? {
            return Ok(Some(i));
        }
    }
    Ok(None)
}

#[test]
fn names_the_first_fault_of_sizes(rt: HostRuntime) -> Result<(), Fail> {
    let alloc = rt.alloc();
    let target = target(alloc).ok_or("no table")?;
    let wrong = first_wrong(alloc, &target)?;
    assert!(rt; wrong.is_none(), "case {wrong:?}");
    Ok(())
}

// A sizes file with sizes for a kind and for one device.
static ASKED: &str =
    "version = 1\ncell = \"TOP\"\nmirror = \"none\"\nkind = [{ name = \"nmos\", length = 10, width = 15 }]\ndevice = [{ index = 1, length = 20, width = 25 }]";

// The devices' kinds, the key at fault and what is wrong there. An empty key: the first two devices have sizes.
static ASKS: [(&[u32], &str, TableCause); 4] = [
    (&[0, 0], "", TableCause::Missing),
    (&[0, 1], "", TableCause::Missing),
    (&[0], "device.0.index", TableCause::Range),
    (&[0, 7, 1, 1], "device.2", TableCause::Missing),
];

// The length and the width of each of the two devices, in steps of 5.
static GIVEN: [(i64, i64); 2] = [(2, 3), (4, 5)];

// Whether the sizes are these lengths and widths.
fn are_wishes(wishes: &[Wish], rows: &[(i64, i64)]) -> bool {
    wishes.len() == rows.len()
        && wishes
            .iter()
            .zip(rows)
            .all(|(wish, row)| wish.length == row.0 && wish.width == row.1)
}

// Whether the devices are given sizes as a case says.
fn gives_as_said(given: &Result<List<Wish>, TableError>, key: &str, cause: TableCause) -> bool {
    match given {
        Ok(wishes) => key.is_empty() && are_wishes(wishes.as_slice(), &GIVEN),
        Err(
            TableError::BadSizes {
                key: found,
                cause: why,
            },
        ) => !key.is_empty() && found.as_slice() == key.as_bytes() && *why == cause,
        Err(_) => false,
    }
}

// What a sizes file says, where it has no fault.
fn said(alloc: Global, bytes: &[u8]) -> Option<Sizes> {
    let target = target(alloc)?;
    read(alloc, &target, bytes)?.ok()
}

#[test]
fn gives_devices_their_sizes(rt: HostRuntime) -> Result<(), Fail> {
    let alloc = rt.alloc();
    let sizes = said(alloc, ASKED.as_bytes()).ok_or("not read")?;
    for case in &ASKS {
        let given = wishes(alloc, &sizes, case.0);
        assert!(rt; gives_as_said(&given, case.1, case.2), "{:?}", case.0);
    }
    Ok(())
}

// Whether the entries are these: numbers, lengths and widths.
fn are_entries(entries: &[(u32, Wish)], said: &[(u32, i64, i64)]) -> bool {
    entries.len() == said.len()
        && entries.iter().zip(said).all(|(e, s)| e.0 == s.0
            && e.1.length == s.1
            && e.1.width == s.2)
}

#[test]
fn keeps_what_a_sizes_file_says(rt: HostRuntime) -> Result<(), Fail> {
    let alloc = rt.alloc();
    let sizes = said(alloc, ASKED.as_bytes()).ok_or("not read")?;
    assert!(rt; sizes.cell.as_slice() == b"TOP".as_slice());
    assert!(rt; matches!(sizes.mirror, Mirror::None));
    assert!(rt; sizes.pivots == 20_000);
    assert!(rt; are_entries(sizes.kinds.as_slice(), &[(0, 2, 3)]));
    assert!(rt; are_entries(sizes.devices.as_slice(), &[(1, 4, 5)]));
    Ok(())
}

// What isn't TOML.
static NOT_TOML: [&[u8]; 3] = [b"\xff", b"version = ", b"a = 1\na = 2"];

#[test]
fn refuses_sizes_that_are_not_toml(rt: HostRuntime) -> Result<(), Fail> {
    let alloc = rt.alloc();
    let target = target(alloc).ok_or("no table")?;
    for bytes in &NOT_TOML {
        let read = read(alloc, &target, bytes);
        assert!(rt; matches!(read, Some(Err(TableError::BadToml))));
    }
    Ok(())
}
