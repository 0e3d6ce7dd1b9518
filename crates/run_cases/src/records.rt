//! The records of a stream, written in words: the name of each, and its data.

use crate::files::Told;
use anyhow::{Result, bail};
use gds_records::{CHARACTERS, FOUR_BYTES, REAL, TWO_BYTES, put_record};
use std::alloc::Global;

// The most bytes of data that a record has.
const MOST_DATA: usize = 65_530;

/// Appends the records that a text writes, one a line or parted by semicolons. The error names the record that can't be
/// read.
pub fn put_records(told: &Told<'_>, to: &mut Vec<u8>, text: &str) -> Result<()> {
    for line in text.lines() {
        for record in line.split(';') {
            put_written(told, to, record.trim())?;
        }
    }
    Ok(())
}

// Appends the record that a text writes, or nothing where there is none.
fn put_written(told: &Told<'_>, to: &mut Vec<u8>, record: &str) -> Result<()> {
    if record.is_empty() {
        return Ok(());
    }
    match record.split_once(' ') {
        Some((name, data)) => put_named(told, to, name, data.trim()),
        None => put_named(told, to, record, ""),
    }
}

/// Appends the record of a name, with these data.
pub fn put_named(told: &Told<'_>, to: &mut Vec<u8>, name: &str, data: &str) -> Result<()> {
    let [code, form] = type_of(told, name)?;
    let mut body = Vec::new(told.alloc);
    put_data(told.alloc, &mut body, form, data)?;
    put_body(to, code, form, &body)
}

/// Appends the record of a name, with these numbers.
pub fn put_numbers(told: &Told<'_>, to: &mut Vec<u8>, name: &str, numbers: &[i32]) -> Result<()> {
    let [code, form] = type_of(told, name)?;
    let mut body = Vec::new(told.alloc);
    for number in numbers {
        put_number(&mut body, form, *number)?;
    }
    put_body(to, code, form, &body)
}

// The number of a record's type, and that of its data type.
fn type_of(told: &Told<'_>, name: &str) -> Result<[u8; 2]> {
    let Some(head) = told.text(name) else {
        bail!("no record is called {name}");
    };
    Ok(u16::from_str_radix(head, 16)?.to_be_bytes())
}

// Appends a record with these bytes of data.
fn put_body(to: &mut Vec<u8>, code: u8, form: u8, body: &[u8]) -> Result<()> {
    if body.len() > MOST_DATA || body.len() % 2 == 1 {
        bail!("a record has too many data");
    }
    put_record(to, code, form, body)?;
    Ok(())
}

// Appends the bytes of data.
fn put_data(alloc: Global, body: &mut Vec<u8>, form: u8, data: &str) -> Result<()> {
    if form == CHARACTERS {
        body.extend_from_slice(data.as_bytes())?;
        let odd = body.len() % 2;
        body.resize(body.len() + odd, 0)?;
        return Ok(());
    }
    if form == TWO_BYTES && data.is_empty() {
        body.resize(24, 0)?;
    }
    for word in data.split_ascii_whitespace() {
        put_word(alloc, body, form, word)?;
    }
    Ok(())
}

// Appends the number or the bytes that a word writes.
fn put_word(alloc: Global, body: &mut Vec<u8>, form: u8, word: &str) -> Result<()> {
    match word.strip_prefix("0x") {
        Some(digits) => put_hex(alloc, body, digits),
        None => put_number(body, form, word.parse::<i32>()?),
    }
}

// Appends a number.
fn put_number(body: &mut Vec<u8>, form: u8, number: i32) -> Result<()> {
    let bytes = number.to_be_bytes();
    match form {
        TWO_BYTES if i16::try_from(number).is_ok() => body.extend_from_slice(&bytes[2..])?,
        FOUR_BYTES => body.extend_from_slice(&bytes)?,
        REAL => body.extend_from_slice(&whole_real(u16::try_from(number)?).to_be_bytes())?,
        _ => bail!("no such number: {number}"),
    }
    Ok(())
}

// A whole number as a real: its power of 16, counted from 64, and then its digits in hexadecimal.
fn whole_real(number: u16) -> u64 {
    let digits = u64::from(number);
    match number {
        0 => 0,
        1..16 => 0x4100_0000_0000_0000 + digits * 0x10_0000_0000_0000,
        16..256 => 0x4200_0000_0000_0000 + digits * 0x1_0000_0000_0000,
        256..4096 => 0x4300_0000_0000_0000 + digits * 0x1000_0000_0000,
        _ => 0x4400_0000_0000_0000 + digits * 0x100_0000_0000,
    }
}

/// Appends the bytes that a text writes in hexadecimal, with blanks between them.
pub fn put_hex(alloc: Global, bytes: &mut Vec<u8>, text: &str) -> Result<()> {
    for word in text.split_ascii_whitespace() {
        bytes.extend_from_slice(&hex::decode(alloc, word)?)?;
    }
    Ok(())
}
