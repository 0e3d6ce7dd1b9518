//! The keys of a file of cases, and what stands by them. A key that isn't listed here is refused.

use anyhow::{Result, bail};
use toml::{Table, Value};

/// The keys of a file of cases, each with the type of its value.
pub static FILE: [(&str, &str); 3] = [("texts", "table"), ("given", "table"), ("case", "array")];

/// The keys of `[given]`.
pub static GIVEN: [(&str, &str); 5] = [
    ("words", "array"),
    ("source", "table"),
    ("stable", "string"),
    ("ttable", "string"),
    ("sizes", "string"),
];

/// The keys of a case.
pub static CASE: [(&str, &str); 16] = [
    ("shows", "string"),
    ("words", "array"),
    ("source", "table"),
    ("stable", "string"),
    ("ttable", "string"),
    ("sizes", "string"),
    ("edits", "array"),
    ("also", "table"),
    ("every_cut", "boolean"),
    ("fails", "integer"),
    ("status", "integer"),
    ("line", "string"),
    ("line_begins", "string"),
    ("line_ends", "string"),
    ("said", "string"),
    ("out", "table"),
];

/// The keys of an edit.
pub static EDIT: [(&str, &str); 3] = [("file", "string"), ("old", "string"), ("new", "string")];

/// The keys of a stream.
pub static STREAM: [(&str, &str); 9] = [
    ("cell", "string"),
    ("rectangles", "array"),
    ("texts", "string"),
    ("records", "string"),
    ("units", "string"),
    ("hex", "string"),
    ("cut", "integer"),
    ("tail", "string"),
    ("zeros", "integer"),
];

/// Refuses a key that isn't known, and a value that isn't of its key's type or is a number below 0.
pub fn check_keys(table: &Table, known: &[(&str, &str)]) -> Result<()> {
    for (key, value) in table {
        if type_of(known, key.as_str()) != value.type_str() || is_negative(value) {
            bail!("no such key, or no such value of it: {}", key.as_str());
        }
    }
    Ok(())
}

// The type of a key's value, and nothing where the key isn't known.
fn type_of<'a>(known: &[(&str, &'a str)], key: &str) -> &'a str {
    for (name, kind) in known {
        if *name == key {
            return kind;
        }
    }
    ""
}

// Whether a value is a number below 0.
fn is_negative(value: &Value) -> bool {
    match value {
        Value::Integer(number) => *number < 0,
        _ => false,
    }
}

/// Refuses a value of another type than text among these.
pub fn check_texts(table: &Table) -> Result<()> {
    for (key, value) in table {
        if !value.is_str() {
            bail!("no text: {}", key.as_str());
        }
    }
    Ok(())
}

/// The text by a key, where there is one.
pub fn text_in<'a>(table: &'a Table, key: &str) -> Option<&'a str> {
    match table.get(key) {
        Some(Value::String(text)) => Some(text.as_str()),
        _ => None,
    }
}

/// The number by a key, where there is one.
pub fn number_in(table: &Table, key: &str) -> Option<u64> {
    match table.get(key) {
        Some(Value::Integer(number)) if 0 <= *number => Some(*number as u64),
        _ => None,
    }
}

/// The table by a key, where there is one.
pub fn table_in<'a>(table: &'a Table, key: &str) -> Option<&'a Table> {
    match table.get(key) {
        Some(Value::Table(inner)) => Some(inner),
        _ => None,
    }
}

/// The list by a key, which is empty where there is none.
pub fn list_in<'a>(table: &'a Table, key: &str) -> &'a [Value] {
    match table.get(key) {
        Some(Value::Array(list)) => list.as_slice(),
        _ => &[],
    }
}
