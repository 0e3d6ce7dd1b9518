//! The words and the files of a case.

use crate::keys::{EDIT, STREAM, check_keys, check_texts, list_in, table_in, text_in};
use crate::stream::put_stream;
use anyhow::{Context, Result, bail};
use rt_desk::names_differ;
use std::alloc::Global;
use toml::{Table, Value};

/// Files of a desk: their names and their bytes.
pub type Files = Vec<(String, Vec<u8>)>;

/// What the cases of a file may cite, and what each has that doesn't say otherwise.
#[derive(Drop)]
pub struct Told<'a> {
    /// Where memory comes from.
    pub alloc: Global,
    /// The texts of the file, which go first.
    pub own: &'a Table,
    /// Those that all files share.
    pub shared: &'a Table,
    /// What each case has that doesn't say otherwise.
    pub given: &'a Table,
}

// The words of a run that says no other.
static WORDS: [&str; 7] = [
    "retarget",
    "source.gds",
    "source.toml",
    "target.toml",
    "sizes.toml",
    "out.gds",
    "out.cert",
];

impl<'a> Told<'a> {
    /// Refuses a text that is none, and a key of the stream that no stream has.
    pub fn check(&self) -> Result<()> {
        check_texts(self.own)?;
        match table_in(self.given, "source") {
            Some(stream) => check_keys(stream, &STREAM),
            None => Ok(()),
        }
    }

    /// The text of a name.
    pub fn text(&self, name: &str) -> Option<&'a str> {
        match text_in(self.own, name) {
            Some(text) => Some(text),
            None => text_in(self.shared, name),
        }
    }

    /// What a case has by a key, or else what is given.
    pub fn value<'c>(&'c self, case: &'c Table, key: &str) -> Option<&'c Value> {
        match case.get(key) {
            Some(value) => Some(value),
            None => self.given.get(key),
        }
    }
}

/// Adds the words of a case.
pub fn put_words(told: &Told<'_>, words: &mut Vec<String>, case: &Table) -> Result<()> {
    if let Some(Value::Array(list)) = told.value(case, "words") {
        return put_listed(told.alloc, words, list);
    }
    for word in &WORDS {
        words.push(String::from_str(told.alloc, word)?)?;
    }
    Ok(())
}

// Adds the words of a list.
fn put_listed(alloc: Global, words: &mut Vec<String>, list: &[Value]) -> Result<()> {
    for value in list {
        let Some(word) = value.as_str() else {
            bail!("a word is a text");
        };
        words.push(String::from_str(alloc, word)?)?;
    }
    Ok(())
}

/// Adds the files of a case, source.gds first where it is there. The error says of which file it is.
pub fn put_files(told: &Told<'_>, files: &mut Files, case: &Table) -> Result<()> {
    put_told(told, files, case, "source", "source.gds")?;
    put_told(told, files, case, "stable", "source.toml")?;
    put_told(told, files, case, "ttable", "target.toml")?;
    put_told(told, files, case, "sizes", "sizes.toml")?;
    make_edits(told.alloc, files, case)?;
    if let Some(also) = table_in(case, "also") {
        put_others(told, files, also)?;
    }
    if !names_differ(files) {
        bail!("two files of one name");
    }
    Ok(())
}

// Adds the file that a case tells by a key, or that is given.
fn put_told(told: &Told<'_>, files: &mut Files, case: &Table, key: &str, name: &str) -> Result<()> {
    match told.value(case, key) {
        Some(value) => put_file(told, files, name, value),
        None => Ok(()),
    }
}

// Adds files by their names.
fn put_others(told: &Told<'_>, files: &mut Files, also: &Table) -> Result<()> {
    for (name, value) in also {
        put_file(told, files, name.as_str(), value)?;
    }
    Ok(())
}

// Adds a stream, or a text that is cited by its name or stands there with a line feed.
fn put_file(told: &Told<'_>, files: &mut Files, name: &str, value: &Value) -> Result<()> {
    let mut bytes = Vec::new(told.alloc);
    put_value(told, &mut bytes, value).context(name)?;
    let name = String::from_str(told.alloc, name)?;
    files.push((name, bytes))?;
    Ok(())
}

// Adds the bytes of a stream, or of a text.
fn put_value(told: &Told<'_>, bytes: &mut Vec<u8>, value: &Value) -> Result<()> {
    match value {
        Value::Table(stream) => put_stream(told, bytes, stream),
        Value::String(cited) => put_cited(told, bytes, cited.as_str()),
        _ => bail!("neither a stream nor a text"),
    }
}

// Adds the bytes of a text.
fn put_cited(told: &Told<'_>, bytes: &mut Vec<u8>, cited: &str) -> Result<()> {
    if cited.contains('\n') {
        bytes.extend_from_slice(cited.as_bytes())?;
        return Ok(());
    }
    let Some(text) = told.text(cited) else {
        bail!("no text is called {cited}");
    };
    bytes.extend_from_slice(text.as_bytes())?;
    Ok(())
}

// Makes the edits of a case.
fn make_edits(alloc: Global, files: &mut Files, case: &Table) -> Result<()> {
    for value in list_in(case, "edits") {
        let Value::Table(edit) = value else {
            bail!("an edit is a table");
        };
        check_keys(edit, &EDIT)?;
        make_edit(alloc, files, edit)?;
    }
    Ok(())
}

// Makes an edit of the file that it names.
fn make_edit(alloc: Global, files: &mut Files, edit: &Table) -> Result<()> {
    let (Some(name), Some(old), Some(new)) = (
        text_in(edit, "file"),
        text_in(edit, "old"),
        text_in(edit, "new"),
    ) else {
        bail!("an edit has file, old and new");
    };
    for file in files.iter_mut() {
        if file.0.as_str() == name {
            file.1 = edited(alloc, &file.1, old, new)?;
            return Ok(());
        }
    }
    bail!("no file {name} to edit")
}

// The bytes of a text with `new` in the one place of `old`.
fn edited(alloc: Global, bytes: &[u8], old: &str, new: &str) -> Result<Vec<u8>> {
    match str::from_utf8(bytes)?.split_once(old) {
        Some((before, after)) if !after.contains(old) => {
            let text = format!(in alloc; "{before}{new}{after}")?;
            Ok(text.into_bytes())
        }
        _ => bail!("an edit wants one place with {old}"),
    }
}
