//! Tables that are read, each field compared with a literal that is written by hand from the table's text.

use crate::texts::edited;
use rt_keys::TableError;
use rt_tables::read_tech;
use rt_tech::{Apart, Enclose, Gates, Kind, Mask, Near, Role, Tech, Which};
use std::alloc::{AllocError, Global};
use std::test::Fail;

// A mask: its name, its role, its layer and data type, the layer and text type of its labels, its width or size, its
// space, and of a cut its upper and its lower masks.
type MaskRow = (
    &'static str,
    Role,
    (i16, i16),
    Option<(i16, i16)>,
    i64,
    i64,
    u32,
    &'static [u32],
);

// A kind: its name, whether its actives may have channels, and its masks with their numbers, inside and outside.
type KindRow = (
    &'static str,
    bool,
    &'static [(u32, i64)],
    &'static [(u32, i64)],
);

// What a table is to say.
struct Said {
    grid: i64,
    units: [u8; 16],
    masks: &'static [MaskRow],
    // Cut, mask and number.
    encloses: &'static [(u32, u32, i64)],
    // Cap, ext and cross.
    gates: (i64, i64, i64),
    // The first mask, the lower mask on which it stands, the second mask, and the number.
    aparts: &'static [(u32, Option<u32>, u32, i64)],
    kinds: &'static [KindRow],
    ignored: &'static [(i16, i16)],
    drop_unlisted: bool,
}

// Whether the mask is as its row says.
fn is_mask(mask: &Mask, row: &MaskRow) -> bool {
    mask.name.as_slice() == row.0.as_bytes()
        && mask.role == row.1
        && (mask.layer, mask.datatype) == row.2
        && mask.note == row.3
        && mask.width == row.4
        && mask.space == row.5
        && mask.upper == row.6
        && mask.lowers.as_slice() == row.7
}

// Whether the masks are as their rows say.
fn are_masks(masks: &[Mask], rows: &[MaskRow]) -> bool {
    masks.len() == rows.len() && masks.iter().zip(rows).all(|(mask, row)| is_mask(mask, row))
}

// Whether the enclosures are as their rows say.
fn are_encloses(encloses: &[Enclose], rows: &[(u32, u32, i64)]) -> bool {
    encloses.len() == rows.len()
        && encloses.iter().zip(rows).all(|(e, row)| e.cut == row.0
            && e.mask == row.1
            && e.number == row.2)
}

// Whether the distances are as their rows say.
fn are_aparts(aparts: &[Apart], rows: &[(u32, Option<u32>, u32, i64)]) -> bool {
    aparts.len() == rows.len()
        && aparts.iter().zip(rows).all(|(x, row)| x.a == row.0
            && x.on == row.1
            && x.b == row.2
            && x.number == row.3)
}

// Whether the backgrounds of a kind are these, with these numbers.
fn are_nears(nears: &[Near], rows: &[(u32, i64)]) -> bool {
    nears.len() == rows.len()
        && nears
            .iter()
            .zip(rows)
            .all(|(near, row)| near.mask == row.0 && near.number == row.1)
}

// Whether the kind is as its row says.
fn is_kind(kind: &Kind, row: &KindRow) -> bool {
    kind.name.as_slice() == row.0.as_bytes()
        && kind.device == row.1
        && are_nears(kind.inside.as_slice(), row.2)
        && are_nears(kind.outside.as_slice(), row.3)
}

// Whether the kinds are as their rows say.
fn are_kinds(kinds: &[Kind], rows: &[KindRow]) -> bool {
    kinds.len() == rows.len() && kinds.iter().zip(rows).all(|(kind, row)| is_kind(kind, row))
}

// Whether the rules of channels are these: cap, ext and cross.
fn are_gates(gates: Option<Gates>, row: (i64, i64, i64)) -> bool {
    match gates {
        Some(gates) => gates.cap == row.0 && gates.ext == row.1 && gates.cross == row.2,
        None => false,
    }
}

// Whether the table says this, field by field.
fn says(tech: &Tech, said: &Said) -> bool {
    tech.grid == said.grid
        && tech.units == said.units
        && are_masks(tech.masks.as_slice(), said.masks)
        && are_encloses(tech.encloses.as_slice(), said.encloses)
        && are_gates(tech.gates, said.gates)
        && are_aparts(tech.aparts.as_slice(), said.aparts)
        && are_kinds(tech.kinds.as_slice(), said.kinds)
        && tech.ignored.as_slice() == said.ignored
        && tech.drop_unlisted == said.drop_unlisted
}

// Whether the text is read as a table that says this.
fn is_read(alloc: Global, parts: &[&str], which: Which, said: &Said) -> Result<bool, AllocError> {
    let Some(head) = parts.first() else {
        return Ok(false);
    };
    let text = edited(alloc, parts, 0, head)?;
    let read = read_tech(alloc, text.as_bytes(), which);
    Ok(is_said(&read, said))
}

// Whether a table was read, and says this.
fn is_said(read: &Result<Tech, TableError>, said: &Said) -> bool {
    match read {
        Ok(tech) => says(tech, said),
        Err(_) => false,
    }
}

// The source table of the examples of transistors, section by section.
static SOURCE: [&str; 18] = [
    "version = 1\ngrid = 1\nunits = \"41100000000000004110000000000000\"",
    "[[mask]]\nname = \"active\"\nrole = \"active\"\nlayer = 2\ndatatype = 0\nwidth = 4\nspace = 4",
    "[[mask]]\nname = \"gate\"\nrole = \"gate\"\nlayer = 4\ndatatype = 0\nwidth = 2\nspace = 3",
    "[[mask]]\nname = \"contact\"\nrole = \"cut\"\nlayer = 6\ndatatype = 0\nsize = 2\nspace = 2\nupper = \"metal1\"\nlower = [\"gate\", \"active\"]",
    "[[mask]]\nname = \"metal1\"\nrole = \"metal\"\nlayer = 8\ndatatype = 0\ntext = [8, 1]\nwidth = 3\nspace = 3",
    "[[mask]]\nname = \"nplus\"\nrole = \"background\"\nlayer = 11\ndatatype = 0\nwidth = 4\nspace = 2",
    "[[mask]]\nname = \"pplus\"\nrole = \"background\"\nlayer = 12\ndatatype = 0\nwidth = 4\nspace = 2",
    "[[mask]]\nname = \"nwell\"\nrole = \"background\"\nlayer = 1\ndatatype = 0\nwidth = 6\nspace = 6",
    "[[enclose]]\ncut = \"contact\"\nmask = \"metal1\"\nnumber = 1",
    "[[enclose]]\ncut = \"contact\"\nmask = \"gate\"\nnumber = 1",
    "[[enclose]]\ncut = \"contact\"\nmask = \"active\"\nnumber = 1",
    "[channel]\ncap = 2\next = 5\ncross = 1",
    "[[apart]]\na = \"contact\"\non = \"active\"\nb = \"gate\"\nnumber = 2",
    "[[apart]]\na = \"contact\"\non = \"gate\"\nb = \"active\"\nnumber = 2",
    "[[kind]]\nname = \"nmos\"\ndevice = true\ninside = [{mask = \"nplus\", number = 2}]\noutside = [{mask = \"pplus\", number = 2}, {mask = \"nwell\", number = 3}]",
    "[[kind]]\nname = \"pmos\"\ndevice = true\ninside = [{mask = \"pplus\", number = 2}, {mask = \"nwell\", number = 3}]\noutside = [{mask = \"nplus\", number = 2}]",
    "[[kind]]\nname = \"ptap\"\ndevice = false\ninside = [{mask = \"pplus\", number = 2}]\noutside = [{mask = \"nplus\", number = 2}, {mask = \"nwell\", number = 3}]",
    "[[kind]]\nname = \"ntap\"\ndevice = false\ninside = [{mask = \"nplus\", number = 2}, {mask = \"nwell\", number = 3}]\noutside = [{mask = \"pplus\", number = 2}]",
];

static SOURCE_SAID: Said = Said {
    grid: 1,
    units: [0x41, 0x10, 0, 0, 0, 0, 0, 0, 0x41, 0x10, 0, 0, 0, 0, 0, 0],
    masks: &[
        ("active", Role::Active, (2, 0), None, 4, 4, 0, &[]),
        ("gate", Role::Gate, (4, 0), None, 2, 3, 0, &[]),
        ("contact", Role::Cut, (6, 0), None, 2, 2, 3, &[1, 0]),
        ("metal1", Role::Metal, (8, 0), Some((8, 1)), 3, 3, 0, &[]),
        ("nplus", Role::Background, (11, 0), None, 4, 2, 0, &[]),
        ("pplus", Role::Background, (12, 0), None, 4, 2, 0, &[]),
        ("nwell", Role::Background, (1, 0), None, 6, 6, 0, &[]),
    ],
    encloses: &[(2, 3, 1), (2, 1, 1), (2, 0, 1)],
    gates: (2, 5, 1),
    aparts: &[(2, Some(0), 1, 2), (2, Some(1), 0, 2)],
    kinds: &[
        ("nmos", true, &[(4, 2)], &[(5, 2), (6, 3)]),
        ("pmos", true, &[(5, 2), (6, 3)], &[(4, 2)]),
        ("ptap", false, &[(5, 2)], &[(4, 2), (6, 3)]),
        ("ntap", false, &[(4, 2), (6, 3)], &[(5, 2)]),
    ],
    ignored: &[],
    drop_unlisted: false,
};

// The target table of the examples of transistors, section by section.
static TARGET: [&str; 18] = [
    "version = 1\ngrid = 1\nunits = \"41100000000000004110000000000000\"",
    "[[mask]]\nname = \"active\"\nrole = \"active\"\nlayer = 22\ndatatype = 0\nwidth = 4\nspace = 4",
    "[[mask]]\nname = \"gate\"\nrole = \"gate\"\nlayer = 24\ndatatype = 0\nwidth = 2\nspace = 4",
    "[[mask]]\nname = \"contact\"\nrole = \"cut\"\nlayer = 26\ndatatype = 0\nsize = 2\nspace = 2\nupper = \"metal1\"\nlower = [\"gate\", \"active\"]",
    "[[mask]]\nname = \"metal1\"\nrole = \"metal\"\nlayer = 28\ndatatype = 0\ntext = [28, 1]\nwidth = 3\nspace = 2",
    "[[mask]]\nname = \"nplus\"\nrole = \"background\"\nlayer = 31\ndatatype = 0\nwidth = 4\nspace = 2",
    "[[mask]]\nname = \"pplus\"\nrole = \"background\"\nlayer = 32\ndatatype = 0\nwidth = 4\nspace = 2",
    "[[mask]]\nname = \"nwell\"\nrole = \"background\"\nlayer = 21\ndatatype = 0\nwidth = 6\nspace = 6",
    "[[enclose]]\ncut = \"contact\"\nmask = \"metal1\"\nnumber = 1",
    "[[enclose]]\ncut = \"contact\"\nmask = \"gate\"\nnumber = 1",
    "[[enclose]]\ncut = \"contact\"\nmask = \"active\"\nnumber = 1",
    "[channel]\ncap = 2\next = 3\ncross = 1",
    "[[apart]]\na = \"contact\"\non = \"active\"\nb = \"gate\"\nnumber = 2",
    "[[apart]]\na = \"contact\"\non = \"gate\"\nb = \"active\"\nnumber = 2",
    "[[kind]]\nname = \"nmos\"\ndevice = true\ninside = [{mask = \"nplus\", number = 2}]\noutside = [{mask = \"pplus\", number = 2}, {mask = \"nwell\", number = 3}]",
    "[[kind]]\nname = \"pmos\"\ndevice = true\ninside = [{mask = \"pplus\", number = 2}, {mask = \"nwell\", number = 3}]\noutside = [{mask = \"nplus\", number = 2}]",
    "[[kind]]\nname = \"ptap\"\ndevice = false\ninside = [{mask = \"pplus\", number = 2}]\noutside = [{mask = \"nplus\", number = 2}, {mask = \"nwell\", number = 3}]",
    "[[kind]]\nname = \"ntap\"\ndevice = false\ninside = [{mask = \"nplus\", number = 2}, {mask = \"nwell\", number = 3}]\noutside = [{mask = \"pplus\", number = 2}]",
];

static TARGET_SAID: Said = Said {
    grid: 1,
    units: [0x41, 0x10, 0, 0, 0, 0, 0, 0, 0x41, 0x10, 0, 0, 0, 0, 0, 0],
    masks: &[
        ("active", Role::Active, (22, 0), None, 4, 4, 0, &[]),
        ("gate", Role::Gate, (24, 0), None, 2, 4, 0, &[]),
        ("contact", Role::Cut, (26, 0), None, 2, 2, 3, &[1, 0]),
        ("metal1", Role::Metal, (28, 0), Some((28, 1)), 3, 2, 0, &[]),
        ("nplus", Role::Background, (31, 0), None, 4, 2, 0, &[]),
        ("pplus", Role::Background, (32, 0), None, 4, 2, 0, &[]),
        ("nwell", Role::Background, (21, 0), None, 6, 6, 0, &[]),
    ],
    encloses: &[(2, 3, 1), (2, 1, 1), (2, 0, 1)],
    gates: (2, 3, 1),
    aparts: &[(2, Some(0), 1, 2), (2, Some(1), 0, 2)],
    kinds: &[
        ("nmos", true, &[(4, 2)], &[(5, 2), (6, 3)]),
        ("pmos", true, &[(5, 2), (6, 3)], &[(4, 2)]),
        ("ptap", false, &[(5, 2)], &[(4, 2), (6, 3)]),
        ("ntap", false, &[(4, 2), (6, 3)], &[(5, 2)]),
    ],
    ignored: &[],
    drop_unlisted: false,
};

// A table in which no two numbers that could be exchanged are alike. Its lengths are multiples of its grid.
static UNLIKE: [&str; 13] = [
    "version = 1\ngrid = 5\nunits = \"3E4189374BC6A7F03944b82fa09b5a54\"\nunlisted = \"ignore\"\nignore = [[63, 7], [62, -1]]",
    "[[mask]]\nname = \"diff\"\nrole = \"active\"\nlayer = 3\ndatatype = 1\nwidth = 20\nspace = 35",
    "[[mask]]\nname = \"poly\"\nrole = \"gate\"\nlayer = 5\ndatatype = 2\ntext = [6, 9]\nwidth = 10\nspace = 15",
    "[[mask]]\nname = \"hole\"\nrole = \"cut\"\nlayer = 7\ndatatype = 4\nsize = 25\nspace = 30\nupper = \"wire\"\nlower = [\"diff\"]",
    "[[mask]]\nname = \"wire\"\nrole = \"metal\"\nlayer = 9\ndatatype = 8\ntext = [10, 0]\nwidth = 40\nspace = 45",
    "[[mask]]\nname = \"tub\"\nrole = \"background\"\nlayer = 11\ndatatype = 0\nwidth = 50\nspace = 55",
    "[[enclose]]\ncut = \"hole\"\nmask = \"wire\"\nnumber = 0",
    "[[enclose]]\ncut = \"hole\"\nmask = \"diff\"\nnumber = 5",
    "[channel]\ncap = 15\next = 30\ncross = 10",
    "[[apart]]\na = \"hole\"\nb = \"poly\"\nnumber = 20",
    "[[apart]]\na = \"wire\"\nb = \"poly\"\nnumber = 60",
    "[[kind]]\nname = \"n\"\ndevice = true\ninside = []\noutside = [{ mask = \"tub\", number = 35 }]",
    "[[kind]]\nname = \"p\"\ndevice = true\ninside = [{ mask = \"tub\", number = 0 }]\noutside = []",
];

// What it says as a target table: lengths in steps of 5.
static IN_STEPS: Said = Said {
    grid: 5,
    units: [
        0x3E, 0x41, 0x89, 0x37, 0x4B, 0xC6, 0xA7, 0xF0, 0x39, 0x44, 0xB8, 0x2F, 0xA0, 0x9B, 0x5A,
        0x54,
    ],
    masks: &[
        ("diff", Role::Active, (3, 1), None, 4, 7, 0, &[]),
        ("poly", Role::Gate, (5, 2), Some((6, 9)), 2, 3, 0, &[]),
        ("hole", Role::Cut, (7, 4), None, 5, 6, 3, &[0]),
        ("wire", Role::Metal, (9, 8), Some((10, 0)), 8, 9, 0, &[]),
        ("tub", Role::Background, (11, 0), None, 10, 11, 0, &[]),
    ],
    encloses: &[(2, 3, 0), (2, 0, 1)],
    gates: (3, 6, 2),
    aparts: &[(2, None, 1, 4), (3, None, 1, 12)],
    kinds: &[("n", true, &[], &[(4, 7)]), ("p", true, &[(4, 0)], &[])],
    ignored: &[(63, 7), (62, -1)],
    drop_unlisted: true,
};

// What it says as a source table: lengths as they are written.
static IN_UNITS: Said = Said {
    grid: 5,
    units: [
        0x3E, 0x41, 0x89, 0x37, 0x4B, 0xC6, 0xA7, 0xF0, 0x39, 0x44, 0xB8, 0x2F, 0xA0, 0x9B, 0x5A,
        0x54,
    ],
    masks: &[
        ("diff", Role::Active, (3, 1), None, 20, 35, 0, &[]),
        ("poly", Role::Gate, (5, 2), Some((6, 9)), 10, 15, 0, &[]),
        ("hole", Role::Cut, (7, 4), None, 25, 30, 3, &[0]),
        ("wire", Role::Metal, (9, 8), Some((10, 0)), 40, 45, 0, &[]),
        ("tub", Role::Background, (11, 0), None, 50, 55, 0, &[]),
    ],
    encloses: &[(2, 3, 0), (2, 0, 5)],
    gates: (15, 30, 10),
    aparts: &[(2, None, 1, 20), (3, None, 1, 60)],
    kinds: &[("n", true, &[], &[(4, 35)]), ("p", true, &[(4, 0)], &[])],
    ignored: &[(63, 7), (62, -1)],
    drop_unlisted: true,
};

#[test]
fn reads_each_field_of_the_transistor_tables(rt: HostRuntime) -> Result<(), Fail> {
    let alloc = rt.alloc();
    assert!(rt; is_read(alloc, &SOURCE, Which::Source, &SOURCE_SAID)?);
    assert!(rt; is_read(alloc, &TARGET, Which::Target, &TARGET_SAID)?);
    Ok(())
}

#[test]
fn reads_each_field_in_units_and_in_steps(rt: HostRuntime) -> Result<(), Fail> {
    let alloc = rt.alloc();
    assert!(rt; is_read(alloc, &UNLIKE, Which::Source, &IN_UNITS)?);
    assert!(rt; is_read(alloc, &UNLIKE, Which::Target, &IN_STEPS)?);
    Ok(())
}
