//! A case tried: the run of the program over a desk in memory, and what differs from what is wanted.

use crate::differences::{put_changes, put_said, put_status};
use crate::files::{Told, put_files, put_words};
use crate::keys::{CASE, check_keys, number_in};
use crate::stream::put_stream;
use anyhow::{Result, bail};
use rt_desk::{Desk, DeskError, MemoryDesk};
use rt_run::run;
use std::alloc::Global;
use toml::{Table, Value};

// Which word of a run names OUT.
const OUT: usize = 5;

/// Appends what differs from what the case wants, and nothing where it is all as wanted. The error says what is wrong
/// in how the case is written.
pub fn try_case(told: &Told<'_>, case: &Table, to: &mut String) -> Result<()> {
    check_keys(case, &CASE)?;
    if !matches!(case.get("every_cut"), Some(Value::Boolean(true))) {
        return try_cut(told, case, usize::MAX, to);
    }
    for length in 0..source_length(told, case)? {
        try_cut(told, case, length, to)?;
        if !to.is_empty() {
            let cut = format!(in told.alloc; "with {length} bytes of source.gds; ")?;
            to.push_str(cut.as_str())?;
            return Ok(());
        }
    }
    Ok(())
}

// How many bytes the source has.
fn source_length(told: &Told<'_>, case: &Table) -> Result<usize> {
    let Some(Value::Table(source)) = told.value(case, "source") else {
        bail!("no source to cut");
    };
    let mut bytes = Vec::new(told.alloc);
    put_stream(told, &mut bytes, source)?;
    Ok(bytes.len())
}

// Appends what differs in the run with at most so many bytes of source.gds.
fn try_cut(told: &Told<'_>, case: &Table, length: usize, to: &mut String) -> Result<()> {
    let mut files = Vec::new(told.alloc);
    put_files(told, &mut files, case)?;
    if let Some(first) = files.first_mut() {
        first.1.truncate(length);
    }
    try_words(told, case, &files, to)
}

// Appends what differs in the run over these files.
fn try_words(
    told: &Told<'_>,
    case: &Table,
    files: &[(String, Vec<u8>)],
    to: &mut String,
) -> Result<()> {
    let mut words = Vec::new(told.alloc);
    put_words(told, &mut words, case)?;
    try_run(told, case, &words, files, to)
}

// Appends what differs in the run of these words over these files.
fn try_run(
    told: &Told<'_>,
    case: &Table,
    words: &[String],
    files: &[(String, Vec<u8>)],
    to: &mut String,
) -> Result<()> {
    let mut desk = desk_of(told.alloc, files)?;
    plan(case, files.len() as u64, &mut desk)?;
    put_run(told, case, words, &mut desk, to)?;
    try_files(told, case, words, files, &desk, to)
}

// Plans which call of the run fails, behind those that stored the files.
fn plan(case: &Table, calls: u64, desk: &mut MemoryDesk) -> Result<()> {
    if let Some(nth) = number_in(case, "fails") {
        desk.fail_at(calls.saturating_add(nth))?;
    }
    Ok(())
}

// Runs the program over a desk, and appends what differs in its status and in what it says.
fn put_run(
    told: &Told<'_>,
    case: &Table,
    words: &[String],
    desk: &mut MemoryDesk,
    to: &mut String,
) -> Result<()> {
    let status = run(told.alloc, words, desk);
    put_status(told.alloc, case, status.0, to)?;
    put_said(told.alloc, case, desk.said(), to)?;
    Ok(())
}

// Appends which files after the run aren't those that are wanted: those before, and OUT as the case tells it.
fn try_files(
    told: &Told<'_>,
    case: &Table,
    words: &[String],
    files: &[(String, Vec<u8>)],
    after: &MemoryDesk,
    to: &mut String,
) -> Result<()> {
    let mut wanted = desk_of(told.alloc, files)?;
    store_out(told, case, words, &mut wanted)?;
    put_changes(told.alloc, words, files, after, &wanted, to)?;
    Ok(())
}

// Stores what OUT is wanted to hold, where the case tells it.
fn store_out(told: &Told<'_>, case: &Table, words: &[String], desk: &mut MemoryDesk) -> Result<()> {
    let Some(Value::Table(out)) = case.get("out") else {
        return Ok(());
    };
    let Some(name) = words.get(OUT) else {
        bail!("no word names OUT");
    };
    let mut bytes = Vec::new(told.alloc);
    put_stream(told, &mut bytes, out)?;
    desk.store(name.as_str(), &bytes)?;
    Ok(())
}

// A desk on which these files are stored.
fn desk_of(alloc: Global, files: &[(String, Vec<u8>)]) -> Result<MemoryDesk> {
    let mut desk = MemoryDesk::new(alloc, Vec::new(alloc));
    store_files(files, &mut desk)?;
    Ok(desk)
}

// Stores files.
fn store_files(files: &[(String, Vec<u8>)], desk: &mut MemoryDesk) -> Result<(), DeskError> {
    for (name, bytes) in files {
        desk.store(name.as_str(), bytes)?;
    }
    Ok(())
}
