//! What differs between how a run ended and what is wanted, in words.

use crate::drawn::put_drawing;
use crate::keys::{number_in, text_in};
use rt_desk::MemoryDesk;
use std::alloc::{AllocError, Global};
use toml::Table;

/// Appends that the status isn't the one that the case wants.
pub fn put_status(
    alloc: Global,
    case: &Table,
    status: u8,
    to: &mut String,
) -> Result<(), AllocError> {
    let Some(wanted) = number_in(case, "status") else {
        return to.push_str("no status is wanted; ");
    };
    if wanted == u64::from(status) {
        return Ok(());
    }
    let text = format!(in alloc; "status {status}, wanted {wanted}; ")?;
    to.push_str(text.as_str())
}

/// Appends what was said, where it isn't what the case wants.
pub fn put_said(
    alloc: Global,
    case: &Table,
    said: &[u8],
    to: &mut String,
) -> Result<(), AllocError> {
    if is_wanted(case, said) {
        return Ok(());
    }
    let text = format!(in alloc; "said {:?}; ", str::from_utf8(said).unwrap_or("no text"))?;
    to.push_str(text.as_str())
}

// Whether what was said is what the case wants. A case that tells all of it and its line is none.
fn is_wanted(case: &Table, said: &[u8]) -> bool {
    let line = said.strip_suffix(b"\n");
    match (
        text_in(case, "said"),
        text_in(case, "line"),
        text_in(case, "line_begins"),
        text_in(case, "line_ends"),
    ) {
        (None, None, None, None) => said.is_empty(),
        (Some(all), None, None, None) => said == all.as_bytes(),
        (None, Some(whole), None, None) => line == Some(whole.as_bytes()),
        (None, None, begins, ends) => has_parts(line, begins, ends),
        _ => false,
    }
}

// Whether a line is there that begins and ends so.
fn has_parts(line: Option<&[u8]>, begins: Option<&str>, ends: Option<&str>) -> bool {
    let Some(line) = line else {
        return false;
    };
    line.starts_with(begins.unwrap_or("").as_bytes())
        && line.ends_with(ends.unwrap_or("").as_bytes())
}

/// Appends each file that isn't as it is wanted. A run knows no other names than its words.
pub fn put_changes(
    alloc: Global,
    words: &[String],
    files: &[(String, Vec<u8>)],
    after: &MemoryDesk,
    wanted: &MemoryDesk,
    to: &mut String,
) -> Result<(), AllocError> {
    for (name, _) in files {
        put_change(alloc, name.as_str(), after, wanted, to)?;
    }
    for word in words {
        put_change(alloc, word.as_str(), after, wanted, to)?;
    }
    Ok(())
}

// Appends a file that isn't as it is wanted, and what it draws.
fn put_change(
    alloc: Global,
    name: &str,
    after: &MemoryDesk,
    wanted: &MemoryDesk,
    to: &mut String,
) -> Result<(), AllocError> {
    let held = after.file(name);
    if held == wanted.file(name) {
        return Ok(());
    }
    to.push_str(name)?;
    to.push_str(" isn't as wanted: it draws")?;
    put_drawing(alloc, to, held)?;
    to.push_str(", wanted")?;
    put_drawing(alloc, to, wanted.file(name))?;
    to.push_str("; ")
}
