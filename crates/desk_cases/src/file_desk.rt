//! A desk over real files reads what it wrote, and replaces a file with the help of one beside it.
use rt_desk::{Desk, DeskError, FileDesk, RefusedStore};
use std::alloc::Global;
use std::fs;
use std::io::ErrorKind;
use std::rt::Files;
use std::test::Fail;

// More bytes than one read or one write takes.
const MANY: usize = 20_000;

// Whether the file has these bytes.
fn holds<R: Files + Print + AllocGlobal>(
    desk: &mut FileDesk<'_, R>,
    alloc: Global,
    name: &str,
    bytes: &[u8],
) -> bool {
    match desk.fetch(alloc, name, bytes.len() as u64) {
        Ok(read) => read.as_slice() == bytes,
        Err(_) => false,
    }
}

#[test]
fn reads_what_it_wrote(rt: HostRuntime) -> Result<(), Fail> {
    let alloc = rt.alloc();
    let name = "desk_cases_reads_what_it_wrote.bin";
    let bytes = Vec::from_elem(alloc, 7u8, MANY)?;
    let mut desk = FileDesk::new(&rt);
    assert!(rt;
        desk.fetch(alloc, name, 10).is_err(),
        "the file was there before the test"
    );
    desk.store(name, &bytes)?;
    assert!(rt; holds(&mut desk, alloc, name, &bytes));
    match desk.fetch(alloc, name, MANY as u64 - 1) {
        Ok(_) => assert!(rt; false, "more bytes than were allowed"),
        Err(error) => assert_eq!(rt; error, DeskError::TooLong),
    }
    desk.store(name, b"")?;
    assert!(rt; holds(&mut desk, alloc, name, b""));
    desk.say(b"said\n")?;
    fs::remove_file(&rt, name)?;
    Ok(())
}

// Two files that killed runs left beside the one that is stored.
static LEFT: [&str; 2] = [
    "desk_cases_passes_over.bin.part",
    "desk_cases_passes_over.bin.part.01",
];

#[test]
fn passes_over_what_a_killed_run_left(rt: HostRuntime) -> Result<(), Fail> {
    let alloc = rt.alloc();
    let name = "desk_cases_passes_over.bin";
    let mut desk = FileDesk::new(&rt);
    desk.store(name, b"old")?;
    for left in &LEFT {
        desk.store(left, b"left")?;
        desk.store(name, left.as_bytes())?;
        assert!(rt; holds(&mut desk, alloc, name, left.as_bytes()), "{left}");
    }
    for left in &LEFT {
        assert!(rt; holds(&mut desk, alloc, left, b"left"), "{left}");
        fs::remove_file(&rt, *left)?;
    }
    assert!(rt; !fs::exists(&rt, "desk_cases_passes_over.bin.part.02")?);
    assert!(rt; desk.refused_store().is_none());
    fs::remove_file(&rt, name)?;
    Ok(())
}

// Whether the last store that failed was of this file, and for this.
fn is_refused<R: Files + Print>(desk: &FileDesk<'_, R>, name: &str, kind: ErrorKind) -> bool {
    match desk.refused_store() {
        Some(
            RefusedStore {
                name: Some(refused),
                kind: why,
            },
        ) => refused.as_str() == name && *why == kind,
        _ => false,
    }
}

// Takes each name that a new file beside the one of that name can have.
fn take_each_name<R: Files + Print>(rt: &R, alloc: Global, name: &str) -> Result<(), Fail> {
    fs::create_dir(rt, format!(in alloc; "{name}.part")?)?;
    for nth in 1..100 {
        fs::create_dir(rt, format!(in alloc; "{name}.part.{nth:02}")?)?;
    }
    Ok(())
}

// Gives the names back.
fn free_each_name<R: Files + Print>(rt: &R, alloc: Global, name: &str) -> Result<(), Fail> {
    fs::remove_dir(rt, format!(in alloc; "{name}.part")?)?;
    for nth in 1..100 {
        fs::remove_dir(rt, format!(in alloc; "{name}.part.{nth:02}")?)?;
    }
    Ok(())
}

#[test]
fn keeps_what_it_cannot_replace(rt: HostRuntime) -> Result<(), Fail> {
    let alloc = rt.alloc();
    let name = "desk_cases_keeps.bin";
    let mut desk = FileDesk::new(&rt);
    desk.store(name, b"old")?;
    take_each_name(&rt, alloc, name)?;
    assert_eq!(rt; desk.store(name, b"new"), Err(DeskError::Failed));
    assert!(rt; is_refused(&desk, name, ErrorKind::AlreadyExists));
    assert!(rt; holds(&mut desk, alloc, name, b"old"));
    free_each_name(&rt, alloc, name)?;
    desk.store(name, b"new")?;
    assert!(rt; holds(&mut desk, alloc, name, b"new"));
    fs::remove_file(&rt, name)?;
    let nowhere = "desk_cases_no_folder/out.bin";
    assert_eq!(rt; desk.store(nowhere, b"new"), Err(DeskError::Failed));
    assert!(rt; is_refused(&desk, nowhere, ErrorKind::NotFound));
    Ok(())
}
