//! The first key at which two tables differ in form.

use crate::texts::edited;
use rt_keys::TableError;
use rt_tables::{read_tech, same_form};
use rt_tech::{Tech, Which};
use std::alloc::{AllocError, Global};
use std::test::Fail;

/// A table, part by part. A case is this text with one part changed.
pub(crate) static TABLE: [&str; 13] = [
    "version = 1\ngrid = 5\nunits = \"41100000000000004110000000000000\"",
    "[[mask]]\nname = \"active\"\nrole = \"active\"\nlayer = 2\ndatatype = 0\nwidth = 10\nspace = 10",
    "[[mask]]\nname = \"gate\"\nrole = \"gate\"\nlayer = 4\ndatatype = 0\nwidth = 10\nspace = 10",
    "[[mask]]\nname = \"cut\"\nrole = \"cut\"\nlayer = 6\ndatatype = 0\nsize = 10\nspace = 10\nupper = \"m1\"\nlower = [\"gate\", \"active\", \"m2\"]\n[[enclose]]\ncut = \"cut\"\nmask = \"m1\"\nnumber = 5\n[[enclose]]\ncut = \"cut\"\nmask = \"gate\"\nnumber = 5\n[[enclose]]\ncut = \"cut\"\nmask = \"active\"\nnumber = 5\n[[enclose]]\ncut = \"cut\"\nmask = \"m2\"\nnumber = 5",
    "[[mask]]\nname = \"m1\"\nrole = \"metal\"\nlayer = 8\ndatatype = 0\nwidth = 10\nspace = 10\ntext = [8, 1]",
    "[[mask]]\nname = \"m2\"\nrole = \"metal\"\nlayer = 9\ndatatype = 0\nwidth = 10\nspace = 10",
    "[[mask]]\nname = \"m3\"\nrole = \"metal\"\nlayer = 10\ndatatype = 0\nwidth = 10\nspace = 10",
    "[[mask]]\nname = \"nplus\"\nrole = \"background\"\nlayer = 11\ndatatype = 0\nwidth = 10\nspace = 10\n[[mask]]\nname = \"pplus\"\nrole = \"background\"\nlayer = 12\ndatatype = 0\nwidth = 10\nspace = 10",
    "[channel]\ncap = 10\next = 25\ncross = 5",
    "[[apart]]\na = \"m1\"\nb = \"m2\"\nnumber = 5",
    "[[apart]]\na = \"cut\"\nb = \"gate\"\nnumber = 5\non = \"active\"\n[[apart]]\na = \"cut\"\nb = \"gate\"\nnumber = 5\non = \"m2\"\n[[apart]]\na = \"cut\"\nb = \"active\"\nnumber = 5\non = \"gate\"\n[[apart]]\na = \"cut\"\nb = \"active\"\nnumber = 5\non = \"m2\"\n[[apart]]\na = \"cut\"\nb = \"m2\"\nnumber = 5\non = \"gate\"\n[[apart]]\na = \"cut\"\nb = \"m2\"\nnumber = 5\non = \"active\"",
    "[[kind]]\nname = \"nmos\"\ndevice = true\ninside = [{ mask = \"nplus\", number = 5 }]\noutside = [{ mask = \"pplus\", number = 5 }]",
    "[[kind]]\nname = \"ptap\"\ndevice = false\ninside = [{ mask = \"pplus\", number = 0 }]\noutside = [{ mask = \"nplus\", number = 5 }]",
];

// The part that is changed, what it says then, and the first key at which the two differ. An empty key: none.
static FORMS: [(usize, &str, &str); 29] = [
    (
        0,
        "version = 1\ngrid = 5\nunits = \"41100000000000004110000000000000\"",
        "",
    ),
    (
        0,
        "version = 1\ngrid = 1\nunits = \"3E4189374BC6A7F03944b82fa09b5a54\"\nunlisted = \"ignore\"",
        "",
    ),
    (
        6,
        "[[mask]]\nname = \"m3\"\nrole = \"metal\"\nlayer = 110\ndatatype = 7\nwidth = 25\nspace = 35",
        "",
    ),
    (8, "[channel]\ncap = 15\next = 30\ncross = 10", ""),
    (9, "[[apart]]\na = \"m1\"\nb = \"m2\"\nnumber = 15", ""),
    (
        11,
        "[[kind]]\nname = \"nmos\"\ndevice = true\ninside = [{ mask = \"nplus\", number = 10 }]\noutside = [{ mask = \"pplus\", number = 15 }]",
        "",
    ),
    (
        6,
        "[[mask]]\nname = \"m4\"\nrole = \"metal\"\nlayer = 10\ndatatype = 0\nwidth = 10\nspace = 10",
        "mask.5.name",
    ),
    (
        6,
        "[[mask]]\nname = \"m3\"\nrole = \"background\"\nlayer = 10\ndatatype = 0\nwidth = 10\nspace = 10",
        "mask.5.role",
    ),
    (
        6,
        "[[mask]]\nname = \"m3\"\nrole = \"metal\"\nlayer = 10\ndatatype = 0\nwidth = 10\nspace = 10\ntext = [10, 1]",
        "mask.5.text",
    ),
    (
        4,
        "[[mask]]\nname = \"m1\"\nrole = \"metal\"\nlayer = 8\ndatatype = 0\nwidth = 10\nspace = 10",
        "mask.3.text",
    ),
    (
        3,
        "[[mask]]\nname = \"cut\"\nrole = \"cut\"\nlayer = 6\ndatatype = 0\nsize = 10\nspace = 10\nupper = \"m3\"\nlower = [\"gate\", \"active\", \"m2\"]\n[[enclose]]\ncut = \"cut\"\nmask = \"m3\"\nnumber = 5\n[[enclose]]\ncut = \"cut\"\nmask = \"gate\"\nnumber = 5\n[[enclose]]\ncut = \"cut\"\nmask = \"active\"\nnumber = 5\n[[enclose]]\ncut = \"cut\"\nmask = \"m2\"\nnumber = 5",
        "mask.2.upper",
    ),
    (
        3,
        "[[mask]]\nname = \"cut\"\nrole = \"cut\"\nlayer = 6\ndatatype = 0\nsize = 10\nspace = 10\nupper = \"m1\"\nlower = [\"active\", \"gate\", \"m2\"]\n[[enclose]]\ncut = \"cut\"\nmask = \"m1\"\nnumber = 5\n[[enclose]]\ncut = \"cut\"\nmask = \"gate\"\nnumber = 5\n[[enclose]]\ncut = \"cut\"\nmask = \"active\"\nnumber = 5\n[[enclose]]\ncut = \"cut\"\nmask = \"m2\"\nnumber = 5",
        "mask.2.lower.0",
    ),
    (
        6,
        "[[mask]]\nname = \"m3\"\nrole = \"metal\"\nlayer = 10\ndatatype = 0\nwidth = 10\nspace = 10\n[[mask]]\nname = \"m4\"\nrole = \"metal\"\nlayer = 20\ndatatype = 0\nwidth = 10\nspace = 10",
        "mask.6.name",
    ),
    (
        7,
        "[[mask]]\nname = \"nplus\"\nrole = \"background\"\nlayer = 11\ndatatype = 0\nwidth = 10\nspace = 10\n[[mask]]\nname = \"pplus\"\nrole = \"background\"\nlayer = 12\ndatatype = 0\nwidth = 10\nspace = 10\n[[mask]]\nname = \"m4\"\nrole = \"metal\"\nlayer = 20\ndatatype = 0\nwidth = 10\nspace = 10",
        "mask.8",
    ),
    (
        3,
        "[[mask]]\nname = \"cut\"\nrole = \"cut\"\nlayer = 6\ndatatype = 0\nsize = 10\nspace = 10\nupper = \"m1\"\nlower = [\"gate\", \"active\", \"m2\"]\n[[enclose]]\ncut = \"cut\"\nmask = \"m1\"\nnumber = 5\n[[enclose]]\ncut = \"cut\"\nmask = \"gate\"\nnumber = 5\n[[enclose]]\ncut = \"cut\"\nmask = \"m2\"\nnumber = 5\n[[enclose]]\ncut = \"cut\"\nmask = \"active\"\nnumber = 5",
        "enclose.2.mask",
    ),
    (
        3,
        "[[mask]]\nname = \"cut\"\nrole = \"cut\"\nlayer = 6\ndatatype = 0\nsize = 10\nspace = 10\nupper = \"m1\"\nlower = [\"gate\", \"active\", \"m2\"]\n[[enclose]]\ncut = \"cut\"\nmask = \"gate\"\nnumber = 5\n[[enclose]]\ncut = \"cut\"\nmask = \"m1\"\nnumber = 5\n[[enclose]]\ncut = \"cut\"\nmask = \"active\"\nnumber = 5\n[[enclose]]\ncut = \"cut\"\nmask = \"m2\"\nnumber = 5",
        "enclose.0.mask",
    ),
    (
        9,
        "[[apart]]\na = \"m2\"\nb = \"m1\"\nnumber = 5",
        "apart.0.a",
    ),
    (
        9,
        "[[apart]]\na = \"m1\"\nb = \"m3\"\nnumber = 5",
        "apart.0.b",
    ),
    (9, "", "apart.0.a"),
    (
        9,
        "[[apart]]\na = \"m1\"\nb = \"m2\"\nnumber = 5\n[[apart]]\na = \"m1\"\nb = \"m3\"\nnumber = 5",
        "apart.1.a",
    ),
    (
        10,
        "[[apart]]\na = \"cut\"\nb = \"gate\"\nnumber = 5\non = \"m2\"\n[[apart]]\na = \"cut\"\nb = \"gate\"\nnumber = 5\non = \"active\"\n[[apart]]\na = \"cut\"\nb = \"active\"\nnumber = 5\non = \"gate\"\n[[apart]]\na = \"cut\"\nb = \"active\"\nnumber = 5\non = \"m2\"\n[[apart]]\na = \"cut\"\nb = \"m2\"\nnumber = 5\non = \"gate\"\n[[apart]]\na = \"cut\"\nb = \"m2\"\nnumber = 5\non = \"active\"",
        "apart.1.on",
    ),
    (
        10,
        "[[apart]]\na = \"cut\"\nb = \"gate\"\nnumber = 5\non = \"active\"\n[[apart]]\na = \"cut\"\nb = \"gate\"\nnumber = 5\non = \"m2\"\n[[apart]]\na = \"cut\"\nb = \"active\"\nnumber = 5\non = \"gate\"\n[[apart]]\na = \"cut\"\nb = \"active\"\nnumber = 5\non = \"m2\"\n[[apart]]\na = \"cut\"\nb = \"m2\"\nnumber = 5\non = \"gate\"\n[[apart]]\na = \"cut\"\nb = \"m2\"\nnumber = 5\non = \"active\"\n[[apart]]\na = \"m1\"\nb = \"m3\"\nnumber = 5",
        "apart.7",
    ),
    (
        11,
        "[[kind]]\nname = \"pmos\"\ndevice = true\ninside = [{ mask = \"nplus\", number = 5 }]\noutside = [{ mask = \"pplus\", number = 5 }]",
        "kind.0.name",
    ),
    (
        11,
        "[[kind]]\nname = \"nmos\"\ndevice = false\ninside = [{ mask = \"nplus\", number = 5 }]\noutside = [{ mask = \"pplus\", number = 5 }]",
        "kind.0.device",
    ),
    (
        11,
        "[[kind]]\nname = \"nmos\"\ndevice = true\ninside = [{ mask = \"nplus\", number = 5 }, { mask = \"pplus\", number = 5 }]\noutside = []",
        "kind.0.inside.1",
    ),
    (
        12,
        "[[kind]]\nname = \"ptap\"\ndevice = false\ninside = [{ mask = \"pplus\", number = 0 }]\noutside = []",
        "kind.1.outside.0",
    ),
    (
        11,
        "[[kind]]\nname = \"nmos\"\ndevice = true\ninside = []\noutside = [{ mask = \"pplus\", number = 5 }]",
        "kind.0.inside.0",
    ),
    (12, "", "kind.1"),
    (
        12,
        "[[kind]]\nname = \"ptap\"\ndevice = false\ninside = [{ mask = \"pplus\", number = 0 }]\noutside = [{ mask = \"nplus\", number = 5 }]\n[[kind]]\nname = \"ntap\"\ndevice = false\ninside = [{ mask = \"nplus\", number = 0 }, { mask = \"pplus\", number = 5 }]\noutside = []",
        "kind.2",
    ),
];

// Whether the comparison answers as a case says: with this key, or that the form is the same where the key is empty.
fn compares_as_said(alloc: Global, source: &Tech, target: &Tech, key: &str) -> bool {
    match same_form(alloc, source, target) {
        Ok(()) => key.is_empty(),
        Err(TableError::TablesDiffer { key: found }) => {
            !key.is_empty() && found.as_slice() == key.as_bytes()
        }
        Err(_) => false,
    }
}

// Whether two tables, which are read, are compared as a case says, in both orders.
fn are_compared(
    alloc: Global,
    whole: &Result<Tech, TableError>,
    changed: &Result<Tech, TableError>,
    key: &str,
) -> bool {
    match (whole, changed) {
        (Ok(whole), Ok(changed)) => {
            compares_as_said(alloc, whole, changed, key)
                && compares_as_said(alloc, changed, whole, key)
        }
        _ => false,
    }
}

// A table of the first parts and a changed one, compared in both orders.
fn is_compared(alloc: Global, case: &(usize, &str, &str)) -> Result<bool, AllocError> {
    let whole = edited(alloc, &TABLE, 0, TABLE[0])?;
    let changed = edited(alloc, &TABLE, case.0, case.1)?;
    let source = read_tech(alloc, whole.as_bytes(), Which::Source);
    let target = read_tech(alloc, changed.as_bytes(), Which::Source);
    Ok(are_compared(alloc, &source, &target, case.2))
}

#[test]
fn names_the_first_difference(rt: HostRuntime) -> Result<(), Fail> {
    let alloc = rt.alloc();
    for case in &FORMS {
        let holds = is_compared(alloc, case)?;
        assert!(rt; holds, "{}: {}", case.0, case.1);
    }
    Ok(())
}
