//! What is read: the files, their stream and their table, and the cell as a flat layout.
ghost use Rattle.std.specs.Prelude.{◌≡◌, IfOk};
ghost use Rattle.rt_tech.specs.Tech.{IsValidTech};
ghost use Rattle.gds_flat.specs.Drawn.{AreDrawable};

use crate::answer::Refusal;
use crate::words::Names;
use gds_flat::{FlatError, flatten};
use gds_stream::{Library, StreamError, read_stream};
use rt_base::{List, Text};
use rt_desk::{Desk, DeskError};
use rt_keys::TableError;
use rt_layout::Layout;
use rt_tables::read_tech;
use rt_tech::{Tech, Which};
use std::alloc::Global;

// The most bytes of a file that is read.
const FILE_LIMIT: u64 = 16_777_216;

/// A cell as it is drawn.
#[derive(Drop)]
pub struct Cell {
    /// Its name.
    pub name: Text,
    /// Its rectangles and its labels.
    pub layout: Layout,
    /// The rule table that names the masks.
    pub table: Tech,
}

/// The cell that the names ask for, or the first fault: of the reading of the two files, of the table, of the stream, of the cell.
pub fn read_cell<'a, D: Desk>(
    alloc: Global,
    names: &Names<'a>,
    desk: &mut D,
) -> Result<Cell, Refusal<'a>>
    ensures { (D.seen desk.new).files ≡ (D.seen desk.old).files }
{
    let source = fetch(alloc, names.source, desk)?;
    let bytes = fetch(alloc, names.table, desk)?;
    let table = read_table(alloc, names.table, &bytes)?;
    flat_cell(alloc, names, &source, table)
}

// Fetches a file.
fn fetch<'a, D: Desk>(alloc: Global, name: &'a str, desk: &mut D) -> Result<Vec<u8>, Refusal<'a>>
    ensures { (D.seen desk.new).files ≡ (D.seen desk.old).files }
{
    match desk.fetch(alloc, name, FILE_LIMIT) {
        Ok(bytes) => Ok(bytes),
        Err(DeskError::TooLong) => Err(Refusal::TooLong { name }),
        Err(DeskError::OutOfMemory) => Err(Refusal::OutOfMemory),
        Err(DeskError::Failed | DeskError::Missing) => Err(Refusal::Unread { name }),
    }
}

// The table that the bytes are. Its lengths aren't looked at, so it may be that of an old or of a new technology.
fn read_table<'a>(alloc: Global, name: &'a str, bytes: &[u8]) -> Result<Tech, Refusal<'a>>
    ensures { IfOk result IsValidTech }
{
    match read_tech(alloc, bytes, Which::Source) {
        Ok(table) => Ok(table),
        Err(TableError::OutOfMemory) => Err(Refusal::OutOfMemory),
        Err(error) => Err(Refusal::NoTable { name, error }),
    }
}

// The library that the bytes are the stream of.
fn read_library<'a>(alloc: Global, name: &'a str, bytes: &[u8]) -> Result<Library, Refusal<'a>>
    ensures { IfOk result (λ library. AreDrawable library.structures) }
{
    match read_stream(alloc, bytes) {
        Ok(library) => Ok(library),
        Err(StreamError::OutOfMemory) => Err(Refusal::OutOfMemory),
        Err(error) => Err(Refusal::NoStream { name, error }),
    }
}

// The cell of the stream, flattened by the table.
fn flat_cell<'a>(
    alloc: Global,
    names: &Names<'a>,
    source: &[u8],
    table: Tech,
) -> Result<Cell, Refusal<'a>>
    requires { IsValidTech table }
{
    let library = read_library(alloc, names.source, source)?;
    let name = structure_name(alloc, names)?;
    match flatten(alloc, &library, &name, &table) {
        Ok(layout) => Ok(Cell {
            name,
            layout,
            table,
        }),
        Err(FlatError::OutOfMemory) => Err(Refusal::OutOfMemory),
        Err(error) => Err(Refusal::NotFlat {
            name: names.source,
            error,
        }),
    }
}

// The name of the structure that is asked for.
fn structure_name<'a>(alloc: Global, names: &Names<'a>) -> Result<Text, Refusal<'a>> {
    let Ok(bytes) = Vec::from_slice(alloc, names.cell.as_bytes()) else {
        return Err(Refusal::OutOfMemory);
    };
    match Text::of(List::of(bytes)) {
        Some(text) => Ok(text),
        None => Err(Refusal::NoName {
            name: names.source,
            cell: names.cell,
        }),
    }
}
