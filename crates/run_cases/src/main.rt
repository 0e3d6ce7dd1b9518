//! The cases of the whole program: each is a run over a desk in memory, told in a file of data/ and tried here.
//!
//! The words are the file of shared texts and then the files of cases, as `tables.toml cells.toml`. A line is printed for each
//! case: `ok cells.toml: two in a row`, or what differs, as `cells.toml: two in a row: status 7, wanted 0; `. The last line counts
//! them. The status is 1 where a case failed. A file or a case that can't be read ends the run with status 1 and an error that
//! names it: nothing is passed over, and no unknown key either.
//!
//! # A file of cases
//!
//! It is TOML. The file of shared texts has a text by each key; among them are the records of a stream, each by its name, as
//! `BOUNDARY = "0800"`: the number of its type and that of its data type, in hexadecimal. A file of cases has:
//!
//! | key | value |
//! |---|---|
//! | `[given]` | what each case has that doesn't say otherwise: `words`, `source`, `stable`, `ttable`, `sizes`. It may be empty |
//! | `[texts]` | further texts by name, which go before the shared ones. It may be left out |
//! | `[[case]]` | a case, with the keys below |
//!
//! | key of a case | value |
//! |---|---|
//! | `shows` | what the case shows, in words |
//! | `words` | the words of the run; where they are left out, `retarget source.gds source.toml target.toml sizes.toml out.gds out.cert` |
//! | `source` | the stream in source.gds |
//! | `stable`, `ttable`, `sizes` | the text in source.toml, target.toml, sizes.toml: its name, or the text itself, which is told by a line feed in it |
//! | `edits` | changes of these three files, as `{ file = "source.toml", old = "width = 3", new = "width = 0" }`; `old` stands there once |
//! | `also` | streams and texts that are there besides, by the names of their files, as `also."out.gds".hex = "00"` |
//! | `fails` | the number of the call of the desk that fails: calls are counted from 0, the fetches first, then the store or the parts of the line |
//! | `every_cut` | true: the run is made with each beginning of source.gds, from no byte to all but one, and each has to end as is wanted |
//! | `status` | the status that is wanted |
//! | `line` | the line that is wanted, without its end |
//! | `line_begins`, `line_ends` | what the line begins and ends with, where it isn't told in full |
//! | `said` | all that is said, where it isn't a whole line |
//! | `out` | the stream that the file OUT is wanted to hold, byte by byte |
//!
//! A file that neither the case nor `[given]` has isn't there. With no `line`, `line_begins`, `line_ends` or `said`, nothing is
//! wanted to be said. Every file but OUT where `out` is given has to be as it was before the run, and no other may be there.
//!
//! | key of a stream | value |
//! |---|---|
//! | `rectangles` | a drawing: a library LIB with one structure. Each rectangle is `[layer, x1, y1, x2, y2]`, of data type 0 |
//! | `texts` | the records of texts behind its rectangles, in words |
//! | `cell` | the name of its structure; TOP where it is left out |
//! | `records` | or the records between UNITS and ENDLIB, in words |
//! | `units` | the data of UNITS in words, of a drawing or of records; `1 1` where they are left out |
//! | `hex` | or all bytes, in hexadecimal, with blanks and line feeds between them |
//! | `cut` | how many of these bytes are kept |
//! | `tail` | bytes behind them, in hexadecimal |
//! | `zeros` | how many zeros stand behind all |
//!
//! Records in words stand one a line, or parted by semicolons: the name of the record and its data, as
//! `BOUNDARY; LAYER 1; DATATYPE 0; XY 0 0 4 0 4 4 0 4 0 0; ENDEL`. Numbers are decimal, and a real so written is whole and below
//! 65,536. Bits and all other reals are the bytes themselves in hexadecimal, as `STRANS 0x8000` and `MAG 0x4080000000000000`. A text
//! is the rest of the record; a zero is put behind an odd one. A record of numbers of two bytes that has no data, as BGNLIB, has
//! twelve zeros.
#![tactic(auto)]

mod differences;
mod drawn;
mod files;
mod keys;
mod records;
mod stream;
mod trial;

use anyhow::{Context, Result, bail};
use files::Told;
use keys::{CASE, FILE, GIVEN, check_keys, check_texts, list_in, table_in, text_in};
use std::process::ExitCode;
use std::{env, fs};
use toml::{Table, Value};
use trial::try_case;

// How many cases were tried, and how many of them weren't as wanted.
#[derive(Drop)]
struct Count {
    tried: u64,
    failed: u64,
}

fn main(rt: HostRuntime) -> Result<ExitCode> {
    let mut words = Vec::new(rt.alloc());
    for word in env::args(&rt)? {
        words.push(word)?;
    }
    try_files(&rt, &words)
}

// Tries the cases of the files that the words name, and tells the status.
fn try_files(rt: &HostRuntime, words: &[String]) -> Result<ExitCode> {
    let [_program, shared, names @ ..] = words else {
        bail!("the words are the file of texts and the files of cases");
    };
    let shared = read_table(rt, shared.as_str())?;
    let count = try_each(rt, &shared, names)?;
    println!(rt; "{} cases, {} failed", count.tried, count.failed)?;
    Ok(if count.failed == 0 {
        ExitCode::SUCCESS
    } else {
        ExitCode::from(1)
    })
}

// What a file holds.
fn read_table(rt: &HostRuntime, name: &str) -> Result<Table> {
    let text = fs::read_to_string(rt, name).context(name)?;
    toml::table_from_str(rt.alloc(), text.as_str()).context(name)
}

// Tries the cases of these files, and counts them.
fn try_each(rt: &HostRuntime, shared: &Table, names: &[String]) -> Result<Count> {
    check_texts(shared)?;
    let mut count = Count {
        tried: 0,
        failed: 0,
    };
    for name in names {
        try_file(rt, shared, name.as_str(), &mut count)?;
    }
    Ok(count)
}

// Tries the cases of a file.
fn try_file(rt: &HostRuntime, shared: &Table, name: &str, count: &mut Count) -> Result<()> {
    let file = read_table(rt, name)?;
    try_cases(rt, shared, name, &file, count).context(name)
}

// Tries the cases that a file holds.
fn try_cases(
    rt: &HostRuntime,
    shared: &Table,
    name: &str,
    file: &Table,
    count: &mut Count,
) -> Result<()> {
    check_keys(file, &FILE)?;
    let (Some(given), true) = (table_in(file, "given"), file.contains_key("case")) else {
        bail!("a file of cases has given and case");
    };
    check_keys(given, &GIVEN)?;
    let told = Told {
        alloc: rt.alloc(),
        own: table_in(file, "texts").unwrap_or(shared),
        shared,
        given,
    };
    told.check()?;
    for case in list_in(file, "case") {
        try_told(rt, &told, name, case, count)?;
    }
    Ok(())
}

// Tries a case, adds it to the count and prints its line.
fn try_told(
    rt: &HostRuntime,
    told: &Told<'_>,
    name: &str,
    case: &Value,
    count: &mut Count,
) -> Result<()> {
    let Value::Table(case) = case else {
        bail!("a case is a table");
    };
    let Some(shows) = text_in(case, "shows") else {
        bail!("a case shows something");
    };
    let mut differs = String::new(told.alloc);
    try_case(told, case, &mut differs).context(shows)?;
    count.tried = count.tried.saturating_add(1);
    if differs.is_empty() {
        println!(rt; "ok {name}: {shows}")?;
    } else {
        count.failed = count.failed.saturating_add(1);
        println!(rt; "{name}: {shows}: {}", differs.as_str())?;
    }
    Ok(())
}
