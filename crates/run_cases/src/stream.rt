//! The bytes of a stream that a case gives or wants.

use crate::files::Told;
use crate::keys::{STREAM, check_keys, list_in, number_in, text_in};
use crate::records::{put_hex, put_named, put_numbers, put_records};
use anyhow::{Result, bail};
use toml::{Table, Value};

/// Appends the bytes of a stream. The error says what is wrong in how it is written.
pub fn put_stream(told: &Told<'_>, bytes: &mut Vec<u8>, stream: &Table) -> Result<()> {
    check_keys(stream, &STREAM)?;
    check_forms(stream)?;
    put_whole(told, bytes, stream)?;
    if let Some(length) = number_in(stream, "cut") {
        bytes.truncate(length as usize);
    }
    if let Some(tail) = text_in(stream, "tail") {
        put_hex(told.alloc, bytes, tail)?;
    }
    let zeros = number_in(stream, "zeros").unwrap_or(0);
    let length = bytes.len().saturating_add(zeros as usize);
    bytes.resize(length, 0)?;
    Ok(())
}

// Refuses a stream that is written in two ways or in none.
fn check_forms(stream: &Table) -> Result<()> {
    let is_drawn = has(stream, "cell") || has(stream, "texts");
    match (
        has(stream, "rectangles"),
        has(stream, "records"),
        has(stream, "hex"),
    ) {
        (true, false, false) => Ok(()),
        (false, true, false) if !is_drawn => Ok(()),
        (false, false, true) if !is_drawn && !has(stream, "units") => Ok(()),
        _ => bail!("a stream is a drawing with rectangles, or records, or hex alone"),
    }
}

// Whether a stream has a key.
fn has(stream: &Table, key: &str) -> bool {
    stream.contains_key(key)
}

// Appends the bytes before anything is cut off or put behind.
fn put_whole(told: &Told<'_>, bytes: &mut Vec<u8>, stream: &Table) -> Result<()> {
    if let Some(hex) = text_in(stream, "hex") {
        return put_hex(told.alloc, bytes, hex);
    }
    put_records(told, bytes, "HEADER 600; BGNLIB; LIBNAME LIB")?;
    put_named(
        told,
        bytes,
        "UNITS",
        text_in(stream, "units").unwrap_or("1 1"),
    )?;
    match text_in(stream, "records") {
        Some(records) => put_records(told, bytes, records)?,
        None => put_drawing(told, bytes, stream)?,
    }
    put_records(told, bytes, "ENDLIB")
}

// Appends a drawing: one structure with rectangles, and texts behind them.
fn put_drawing(told: &Told<'_>, bytes: &mut Vec<u8>, stream: &Table) -> Result<()> {
    put_records(told, bytes, "BGNSTR")?;
    put_named(
        told,
        bytes,
        "STRNAME",
        text_in(stream, "cell").unwrap_or("TOP"),
    )?;
    for rectangle in list_in(stream, "rectangles") {
        put_rectangle(told, bytes, rectangle)?;
    }
    put_records(told, bytes, text_in(stream, "texts").unwrap_or(""))?;
    put_records(told, bytes, "ENDSTR")
}

// Appends a rectangle: its corners counterclockwise from the lower left one, which is also the last.
fn put_rectangle(told: &Told<'_>, bytes: &mut Vec<u8>, rectangle: &Value) -> Result<()> {
    let Some(numbers) = numbers_of(rectangle) else {
        bail!("a rectangle is five numbers");
    };
    let [layer, x1, y1, x2, y2] = numbers;
    put_records(told, bytes, "BOUNDARY")?;
    put_numbers(told, bytes, "LAYER", &[layer])?;
    put_records(told, bytes, "DATATYPE 0")?;
    put_numbers(told, bytes, "XY", &[x1, y1, x2, y1, x2, y2, x1, y2, x1, y1])?;
    put_records(told, bytes, "ENDEL")
}

// The numbers of a rectangle, where it is five.
fn numbers_of(rectangle: &Value) -> Option<[i32; 5]> {
    let Value::Array(values) = rectangle else {
        return None;
    };
    let [layer, x1, y1, x2, y2] = values.as_slice() else {
        return None;
    };
    Some([
        number_of(layer)?,
        number_of(x1)?,
        number_of(y1)?,
        number_of(x2)?,
        number_of(y2)?,
    ])
}

// A number of a rectangle.
fn number_of(value: &Value) -> Option<i32> {
    match value {
        Value::Integer(number) => i32::try_from(*number).ok(),
        _ => None,
    }
}
