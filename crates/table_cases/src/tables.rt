//! The first fault of a rule table: the key that is named and its cause, and tables without a fault.

use crate::texts::edited;
use rt_keys::TableError;
use rt_tables::read_tech;
use rt_tech::{TableCause, Tech, Which};
use std::alloc::{AllocError, Global};
use std::test::Fail;

// A table, line by line. A case is this text with one line changed.
static TABLE: [&str; 66] = [
    "version = 1",
    "grid = 1",
    "units = \"41100000000000004110000000000000\"",
    "",
    "",
    "[[mask]]",
    "name = \"active\"",
    "role = \"active\"",
    "layer = 2",
    "datatype = 0",
    "width = 4",
    "space = 4",
    "[[mask]]",
    "name = \"gate\"",
    "role = \"gate\"",
    "layer = 4",
    "datatype = 0",
    "width = 2",
    "space = 3",
    "[[mask]]",
    "name = \"contact\"",
    "role = \"cut\"",
    "layer = 6",
    "datatype = 0",
    "size = 2",
    "space = 2",
    "upper = \"metal1\"",
    "lower = [\"gate\", \"active\"]",
    "[[mask]]",
    "name = \"metal1\"",
    "role = \"metal\"",
    "layer = 8",
    "datatype = 0",
    "text = [8, 1]",
    "width = 3",
    "space = 3",
    "[[mask]]",
    "name = \"nplus\"",
    "role = \"background\"",
    "layer = 11",
    "datatype = 0",
    "width = 4",
    "space = 2",
    "[[mask]]",
    "name = \"pplus\"",
    "role = \"background\"",
    "layer = 12",
    "datatype = 0",
    "width = 4",
    "space = 2",
    "[[enclose]]",
    "cut = \"contact\"",
    "mask = \"metal1\"",
    "number = 1",
    "[[enclose]]\ncut = \"contact\"\nmask = \"gate\"\nnumber = 1",
    "[[enclose]]\ncut = \"contact\"\nmask = \"active\"\nnumber = 0",
    "[channel]\ncap = 2\next = 5\ncross = 1",
    "[[apart]]",
    "a = \"contact\"",
    "b = \"gate\"",
    "number = 2",
    "on = \"active\"",
    "[[apart]]\na = \"contact\"\nb = \"active\"\nnumber = 2\non = \"gate\"",
    "[[kind]]\nname = \"nmos\"\ndevice = true\ninside = [{ mask = \"nplus\", number = 0 }]",
    "outside = [{ mask = \"pplus\", number = 2 }]",
    "[[kind]]\nname = \"channel\"\ndevice = false\ninside = [{ mask = \"pplus\", number = 2 }]\noutside = [{ mask = \"nplus\", number = 2 }]",
];

// The line that is changed, what it says then, the key at fault and what is wrong there. An empty key: no fault.
static CASES: [(usize, &str, &str, TableCause); 151] = [
    (0, "version = 1 # as before", "", TableCause::Missing),
    (0, "", "version", TableCause::Missing),
    (0, "version = 1.0", "version", TableCause::Form),
    (0, "version = 2", "version", TableCause::Range),
    (0, "version = 2\nzoo = 1", "version", TableCause::Range),
    (1, "grid = 100", "", TableCause::Missing),
    (1, "", "grid", TableCause::Missing),
    (1, "grid = \"1\"", "grid", TableCause::Form),
    (1, "grid = 0", "grid", TableCause::Range),
    (1, "grid = 101", "grid", TableCause::Range),
    (
        2,
        "units = \"3E4189374BC6A7F03944b82fa09b5a54\"",
        "",
        TableCause::Missing,
    ),
    (2, "", "units", TableCause::Missing),
    (2, "units = 41", "units", TableCause::Form),
    (
        2,
        "units = \"4110000000000000411000000000000\"",
        "units",
        TableCause::Range,
    ),
    (
        2,
        "units = \"4110000000000000411000000000000g\"",
        "units",
        TableCause::Range,
    ),
    (3, "unlisted = \"refuse\"", "", TableCause::Missing),
    (3, "unlisted = \"ignore\"", "", TableCause::Missing),
    (3, "unlisted = 1", "unlisted", TableCause::Form),
    (3, "unlisted = \"\"", "unlisted", TableCause::Range),
    (
        4,
        "ignore = [[-32768, -1], [32767, 0], [2, 1]]",
        "",
        TableCause::Missing,
    ),
    (
        4,
        "ignore = [[2, 1], [2, 1], [3, 7, \"x\"]]",
        "ignore.2",
        TableCause::Range,
    ),
    (4, "ignore = 1", "ignore", TableCause::Form),
    (4, "ignore = [[9, 9], 1]", "ignore.1", TableCause::Form),
    (4, "ignore = [[]]", "ignore.0", TableCause::Range),
    (4, "ignore = [[9]]", "ignore.0", TableCause::Range),
    (4, "ignore = [[\"9\", 9]]", "ignore.0.0", TableCause::Form),
    (4, "ignore = [[9, 9.0]]", "ignore.0.1", TableCause::Form),
    (4, "ignore = [[-32769, 0]]", "ignore.0.0", TableCause::Range),
    (4, "ignore = [[0, -2]]", "ignore.0.1", TableCause::Range),
    (4, "ignore = [[0, 32768]]", "ignore.0.1", TableCause::Range),
    (4, "ignore = [[8, 0]]", "mask.3.datatype", TableCause::Clash),
    (4, "ignore = [[8, 1]]", "mask.3.text", TableCause::Clash),
    (
        4,
        "ignore = [[2, -1]]",
        "mask.0.datatype",
        TableCause::Clash,
    ),
    (6, "", "mask.0.name", TableCause::Missing),
    (6, "name = 1", "mask.0.name", TableCause::Form),
    (6, "name = \"Active\"", "mask.0.name", TableCause::Range),
    (6, "name = \"\"", "mask.0.name", TableCause::Range),
    (6, "name = \"channel\"", "mask.0.name", TableCause::Range),
    (
        6,
        "name = \"abcdefghijklmnopqrstuvwxyz0123456\"",
        "mask.0.name",
        TableCause::Range,
    ),
    (
        13,
        "name = \"active\"",
        "mask.1.name",
        TableCause::Duplicate,
    ),
    (7, "", "mask.0.role", TableCause::Missing),
    (7, "role = []", "mask.0.role", TableCause::Form),
    (7, "role = \"wire\"", "mask.0.role", TableCause::Range),
    (38, "role = \"active\"", "mask.4.role", TableCause::Clash),
    (38, "role = \"gate\"", "mask.4.role", TableCause::Clash),
    (8, "", "mask.0.layer", TableCause::Missing),
    (8, "layer = true", "mask.0.layer", TableCause::Form),
    (8, "layer = -1", "mask.0.layer", TableCause::Range),
    (8, "layer = 32768", "mask.0.layer", TableCause::Range),
    (9, "", "mask.0.datatype", TableCause::Missing),
    (
        9,
        "datatype = 1979-05-27",
        "mask.0.datatype",
        TableCause::Form,
    ),
    (9, "datatype = 32768", "mask.0.datatype", TableCause::Range),
    (15, "layer = 2", "mask.1.datatype", TableCause::Duplicate),
    (33, "text = 8", "mask.3.text", TableCause::Form),
    (33, "text = [\"x\"]", "mask.3.text.0", TableCause::Form),
    (33, "text = [8, -1]", "mask.3.text.1", TableCause::Range),
    (33, "text = [8]", "mask.3.text", TableCause::Range),
    (33, "text = [8, 1, 1]", "mask.3.text", TableCause::Range),
    (
        17,
        "width = 2\ntext = [8, 1]",
        "mask.3.text",
        TableCause::Duplicate,
    ),
    (17, "width = 2\ntext = [4, 0]", "", TableCause::Missing),
    (
        10,
        "width = 4\ntext = [2, 0]",
        "mask.0.text",
        TableCause::Role,
    ),
    (11, "", "mask.0.space", TableCause::Missing),
    (11, "space = 4.5", "mask.0.space", TableCause::Form),
    (11, "space = 0", "mask.0.space", TableCause::Range),
    (11, "space = 1000001", "mask.0.space", TableCause::Range),
    (11, "space = 1000000", "", TableCause::Missing),
    (10, "", "mask.0.width", TableCause::Missing),
    (10, "width = \"4\"", "mask.0.width", TableCause::Form),
    (10, "width = 0", "mask.0.width", TableCause::Range),
    (11, "space = 0\nzoo = 1", "mask.0.space", TableCause::Range),
    (
        11,
        "space = 4\nabc = 1\nnotch = 3",
        "mask.0.notch",
        TableCause::Unknown,
    ),
    (
        64,
        "outside = [{ mask = \"pplus\", number = 2 }]\nabc = 1\nbulk = 1",
        "kind.0.bulk",
        TableCause::Unknown,
    ),
    (
        24,
        "size = 2\nwidth = 2",
        "mask.2.width",
        TableCause::Unknown,
    ),
    (
        10,
        "width = 4\nsize = []",
        "mask.0.size",
        TableCause::Unknown,
    ),
    (24, "", "mask.2.size", TableCause::Missing),
    (24, "size = {}", "mask.2.size", TableCause::Form),
    (24, "size = 0", "mask.2.size", TableCause::Range),
    (
        10,
        "width = 4\nupper = \"metal1\"",
        "mask.0.upper",
        TableCause::Unknown,
    ),
    (26, "", "mask.2.upper", TableCause::Missing),
    (26, "upper = [\"metal1\"]", "mask.2.upper", TableCause::Form),
    (26, "upper = \"metal2\"", "mask.2.upper", TableCause::Name),
    (26, "upper = \"gate\"", "mask.2.upper", TableCause::Role),
    (26, "upper = \"nplus\"", "mask.2.upper", TableCause::Role),
    (
        10,
        "width = 4\nlower = 1",
        "mask.0.lower",
        TableCause::Unknown,
    ),
    (27, "", "mask.2.lower", TableCause::Missing),
    (27, "lower = \"gate\"", "mask.2.lower", TableCause::Form),
    (
        27,
        "lower = [\"gate\", 1]",
        "mask.2.lower.1",
        TableCause::Form,
    ),
    (
        27,
        "lower = [\"gate\", \"poly\"]",
        "mask.2.lower.1",
        TableCause::Name,
    ),
    (
        27,
        "lower = [\"pplus\"]",
        "mask.2.lower.0",
        TableCause::Role,
    ),
    (27, "lower = []", "mask.2.lower", TableCause::Range),
    (
        27,
        "lower = [\"gate\", \"gate\"]",
        "mask.2.lower",
        TableCause::Clash,
    ),
    (
        27,
        "lower = [\"gate\", \"metal1\"]",
        "mask.2.lower",
        TableCause::Clash,
    ),
    (
        10,
        "width = 4\nz = 1\ncolour = 2",
        "mask.0.colour",
        TableCause::Unknown,
    ),
    (
        10,
        "width = 4\n\"caf\u{e9}\" = 1",
        "mask.0.caf??",
        TableCause::Unknown,
    ),
    (
        10,
        "width = 4\n\"a.b\\n\" = 1",
        "mask.0.a.b?",
        TableCause::Unknown,
    ),
    (10, "width = 4\n\"\" = 1", "mask.0.", TableCause::Unknown),
    (51, "", "enclose.0.cut", TableCause::Missing),
    (51, "cut = 1", "enclose.0.cut", TableCause::Form),
    (51, "cut = \"via\"", "enclose.0.cut", TableCause::Name),
    (51, "cut = \"gate\"", "enclose.0.cut", TableCause::Role),
    (52, "", "enclose.0.mask", TableCause::Missing),
    (52, "mask = true", "enclose.0.mask", TableCause::Form),
    (52, "mask = \"\"", "enclose.0.mask", TableCause::Name),
    (53, "", "enclose.0.number", TableCause::Missing),
    (53, "number = 0", "", TableCause::Missing),
    (53, "number = -1", "enclose.0.number", TableCause::Range),
    (53, "number = \"0\"", "enclose.0.number", TableCause::Form),
    (
        53,
        "number = 1\non = \"gate\"",
        "enclose.0.on",
        TableCause::Unknown,
    ),
    (52, "mask = \"gate\"", "enclose.1", TableCause::Duplicate),
    (52, "mask = \"nplus\"", "enclose.0", TableCause::Clash),
    (54, "", "enclose", TableCause::Missing),
    (56, "", "channel", TableCause::Missing),
    (56, "[[channel]]", "channel", TableCause::Form),
    (
        56,
        "[channel]\ncap = 2\next = 5",
        "channel.cross",
        TableCause::Missing,
    ),
    (
        56,
        "[channel]\ncap = \"2\"",
        "channel.cap",
        TableCause::Form,
    ),
    (
        56,
        "[channel]\ncap = 2\next = 0",
        "channel.ext",
        TableCause::Range,
    ),
    (
        56,
        "[channel]\ncap = 2\next = 5\ncross = 1\nend = 1",
        "channel.end",
        TableCause::Unknown,
    ),
    (58, "", "apart.0.a", TableCause::Missing),
    (58, "a = 1", "apart.0.a", TableCause::Form),
    (58, "a = \"channel\"", "apart.0.a", TableCause::Name),
    (59, "", "apart.0.b", TableCause::Missing),
    (59, "b = 1", "apart.0.b", TableCause::Form),
    (59, "b = \"poly\"", "apart.0.b", TableCause::Name),
    (60, "", "apart.0.number", TableCause::Missing),
    (60, "number = {}", "apart.0.number", TableCause::Form),
    (60, "number = 0", "apart.0.number", TableCause::Range),
    (61, "", "apart.0.on", TableCause::Missing),
    (61, "on = 1", "apart.0.on", TableCause::Form),
    (61, "on = \"poly\"", "apart.0.on", TableCause::Name),
    (61, "on = \"gate\"", "apart.0", TableCause::Clash),
    (61, "on = \"metal1\"", "apart.0", TableCause::Clash),
    (
        61,
        "on = \"active\"\nin = 1",
        "apart.0.in",
        TableCause::Unknown,
    ),
    (59, "b = \"nplus\"", "apart.0.on", TableCause::Unknown),
    (62, "", "apart", TableCause::Missing),
    (
        62,
        "[[apart]]\na = \"contact\"\nb = \"gate\"\nnumber = 3\non = \"active\"",
        "apart.1",
        TableCause::Duplicate,
    ),
    (
        57,
        "[[apart]]\na = \"gate\"\nb = \"active\"\nnumber = 3\n[[apart]]",
        "apart.0",
        TableCause::Clash,
    ),
    (
        57,
        "[[apart]]\na = \"nplus\"\nb = \"nplus\"\nnumber = 3\n[[apart]]",
        "apart.0",
        TableCause::Clash,
    ),
    (
        57,
        "[[apart]]\na = \"contact\"\nb = \"metal1\"\nnumber = 3\n[[apart]]",
        "apart.0",
        TableCause::Clash,
    ),
    (
        57,
        "[[apart]]\na = \"metal1\"\nb = \"contact\"\nnumber = 3\n[[apart]]",
        "apart.0",
        TableCause::Clash,
    ),
    (
        57,
        "[[apart]]\na = \"gate\"\nb = \"contact\"\nnumber = 3\n[[apart]]",
        "apart.0",
        TableCause::Clash,
    ),
    (
        57,
        "[[apart]]\na = \"nplus\"\nb = \"gate\"\nnumber = 3\n[[apart]]",
        "",
        TableCause::Missing,
    ),
    (
        63,
        "[[kind]]\nname = \"n-mos\"",
        "kind.0.name",
        TableCause::Range,
    ),
    (
        63,
        "[[kind]]\nname = \"channel\"\ndevice = true\ninside = []",
        "kind.1.name",
        TableCause::Duplicate,
    ),
    (
        63,
        "[[kind]]\nname = \"nmos\"\ndevice = 1",
        "kind.0.device",
        TableCause::Form,
    ),
    (
        63,
        "[[kind]]\nname = \"nmos\"\ndevice = true\ninside = {}",
        "kind.0.inside",
        TableCause::Form,
    ),
    (
        64,
        "outside = [{ mask = \"gate\", number = 2 }]",
        "kind.0.outside.0.mask",
        TableCause::Role,
    ),
    (
        64,
        "outside = [{ mask = \"pplus\", number = 0 }]",
        "kind.0.outside.0.number",
        TableCause::Range,
    ),
    (
        64,
        "outside = [{ mask = \"pplus\", number = 1 }, { mask = \"pplus\", number = 2 }]",
        "kind.0.outside.1",
        TableCause::Duplicate,
    ),
    (
        64,
        "outside = []\ninside_of = 1",
        "kind.0.inside_of",
        TableCause::Unknown,
    ),
    (
        65,
        "[[kind]]\nname = \"b\"\ndevice = false\ninside = []\noutside = []",
        "kind.1",
        TableCause::Clash,
    ),
    (
        65,
        "[[kind]]\nname = \"b\"\ndevice = false\ninside = []\noutside = []\n[zoo]",
        "kind.1",
        TableCause::Clash,
    ),
];

// Whether a table was read as a case says: with this key and this cause, or without a fault where the key is empty.
fn is_as_said(read: &Result<Tech, TableError>, key: &str, cause: TableCause) -> bool {
    match read {
        Ok(_) => key.is_empty(),
        Err(
            TableError::BadTable {
                key: found,
                cause: why,
            },
        ) => { !key.is_empty() && found.as_slice() == key.as_bytes() && *why == cause }
        Err(_) => false,
    }
}

// Whether the table with a changed line is read as a case says.
fn is_read(alloc: Global, case: &(usize, &str, &str, TableCause)) -> Result<bool, AllocError> {
    let text = edited(alloc, &TABLE, case.0, case.1)?;
    let read = read_tech(alloc, text.as_bytes(), Which::Source);
    Ok(is_as_said(&read, case.2, case.3))
}

#[test]
fn names_the_first_fault(rt: HostRuntime) -> Result<(), Fail> {
    let alloc = rt.alloc();
    for case in &CASES {
        let holds = is_read(alloc, case)?;
        assert!(rt; holds, "{}: {}", case.0, case.1);
    }
    Ok(())
}

// The first lines of a table of metals.
static HEAD: &str = "version = 1\ngrid = 5\nunits = \"3E4189374BC6A7F03944b82fa09b5a54\"\n";

// What follows them, the key at fault and what is wrong there. An empty key: no fault.
static ENDS: [(&str, &str, TableCause); 21] = [
    ("", "mask", TableCause::Missing),
    ("mask = 1", "mask", TableCause::Form),
    ("mask = []", "mask", TableCause::Range),
    ("mask = [1]", "mask.0", TableCause::Form),
    (
        "mask = [{ name = \"m\", role = \"metal\", layer = 1, datatype = 0, width = 30, space = 20 }]",
        "",
        TableCause::Missing,
    ),
    (
        "mask = [{ name = \"m\", role = \"metal\", layer = 1, datatype = 0, width = 31, space = 20 }]",
        "mask.0.width",
        TableCause::Range,
    ),
    (
        "mask = [{ name = \"m\", role = \"metal\", layer = 1, datatype = 0, width = 30, space = 20 }]\nenclose = 1",
        "enclose",
        TableCause::Form,
    ),
    (
        "mask = [{ name = \"m\", role = \"metal\", layer = 1, datatype = 0, width = 30, space = 20 }]\nenclose = [1]",
        "enclose.0",
        TableCause::Form,
    ),
    (
        "mask = [{ name = \"m\", role = \"metal\", layer = 1, datatype = 0, width = 30, space = 20 }]\nenclose = []\napart = []",
        "",
        TableCause::Missing,
    ),
    (
        "mask = [{ name = \"m\", role = \"metal\", layer = 1, datatype = 0, width = 30, space = 20 }]\nchannel = 1\nenclose = 1",
        "enclose",
        TableCause::Form,
    ),
    (
        "mask = [{ name = \"m\", role = \"metal\", layer = 1, datatype = 0, width = 30, space = 20 }]\nchannel = 1\napart = 1",
        "channel",
        TableCause::Unknown,
    ),
    (
        "mask = [{ name = \"m\", role = \"metal\", layer = 1, datatype = 0, width = 30, space = 20 }]\nkind = []\napart = 1",
        "apart",
        TableCause::Form,
    ),
    (
        "mask = [{ name = \"m\", role = \"metal\", layer = 1, datatype = 0, width = 30, space = 20 }]\napart = [[]]",
        "apart.0",
        TableCause::Form,
    ),
    (
        "mask = [{ name = \"m\", role = \"metal\", layer = 1, datatype = 0, width = 30, space = 20 }]\nkind = []",
        "kind",
        TableCause::Unknown,
    ),
    (
        "mask = [{ name = \"m\", role = \"metal\", layer = 1, datatype = 0, width = 30, space = 20 }]\nzoo = 1\nabc = 2",
        "abc",
        TableCause::Unknown,
    ),
    (
        "mask = [{ name = \"m\", role = \"metal\", layer = 1, datatype = 0, width = 30, space = 20 }]\nresistor = 1\nabc = 2",
        "resistor",
        TableCause::Unknown,
    ),
    (
        "mask = [{ name = \"m\", role = \"gate\", layer = 1, datatype = 0, width = 30, space = 20 }]",
        "mask",
        TableCause::Missing,
    ),
    (
        "mask = [{ name = \"m\", role = \"active\", layer = 1, datatype = 0, width = 30, space = 20 }]",
        "mask",
        TableCause::Missing,
    ),
    (
        "mask = [{ name = \"v\", role = \"cut\", layer = 1, datatype = 0, size = 30, space = 20, upper = \"n\", lower = [\"m\"] }, { name = \"n\", role = \"metal\", layer = 2, datatype = 0, width = 5, space = 5 }, 1]",
        "mask.0.lower.0",
        TableCause::Name,
    ),
    (
        "mask = [{ name = \"v\", role = \"cut\", layer = 1, datatype = 0, size = 30, space = 20, upper = \"n\", lower = [\"m\"] }, { name = \"n\", role = \"metal\" }, { name = \"m\", role = \"metal\" }]",
        "mask.1.layer",
        TableCause::Missing,
    ),
    (
        "mask = [{ name = \"v\", role = \"cut\", layer = 1, datatype = 0, size = 30, space = 20, upper = \"n\", lower = [\"m\"] }, { name = \"n\", role = \"metal\", layer = 2, datatype = 0, width = 5, space = 5 }, { name = \"m\", role = \"metal\", layer = 3, datatype = 0, width = 5, space = 5 }]",
        "enclose",
        TableCause::Missing,
    ),
];

// Whether the target table with these lines at its end is read as a case says.
fn ends_as_said(alloc: Global, case: &(&str, &str, TableCause)) -> Result<bool, AllocError> {
    let mut text = String::new(alloc);
    text.push_str(HEAD)?;
    text.push_str(case.0)?;
    let read = read_tech(alloc, text.as_bytes(), Which::Target);
    Ok(is_as_said(&read, case.1, case.2))
}

#[test]
fn names_the_first_fault_of_targets(rt: HostRuntime) -> Result<(), Fail> {
    let alloc = rt.alloc();
    for case in &ENDS {
        let holds = ends_as_said(alloc, case)?;
        assert!(rt; holds, "{}", case.0);
    }
    Ok(())
}

// What isn't TOML.
static NOT_TOML: [&[u8]; 2] = [b"\xff", b"version = "];

#[test]
fn refuses_tables_that_are_not_toml(rt: HostRuntime) {
    let alloc = rt.alloc();
    for bytes in &NOT_TOML {
        let source = read_tech(alloc, bytes, Which::Source);
        assert!(rt; matches!(source, Err(TableError::BadToml)));
        let target = read_tech(alloc, bytes, Which::Target);
        assert!(rt; matches!(target, Err(TableError::BadToml)));
    }
}
