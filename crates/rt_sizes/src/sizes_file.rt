//! Sizes files as documents, key by key.
ghost use Rattle.std.specs.Prelude.{◌≡◌, ◌+◌, true, false, nat_abs, MatchOption, Some, None, codes, is_some, IfOk, IfErr};
ghost use Rattle.std.specs.List.{list_all};
ghost use Rattle.toml.specs.View.{view, table_view, items_view};
ghost use Rattle.rt_tech.specs.Tech.{IsGrid};
ghost use Rattle.rt_keys.specs.Document.{number as number_at, word as word_at, list as list_at};
ghost use Rattle.rt_keys.specs.Faults.{Reads, others as others_of};
ghost use Rattle.rt_sizes.specs.SizesFile.{is_printable as is_printable_of, is_cell as is_cell_of, is_mirror as is_mirror_of, cell_fault, mirror_fault, mirror_of, pivots_fault, pivots_of, later_fault, kinds_of, devices_of, lists_fault, sizes_fault, sizes_of, DescribesSizes, RefusesFile};

use crate::limits::{AXIS_LIMIT, PIVOT_LIMIT, PIVOTS};
use crate::sizes_entries::{devices, kinds};
use rt_base::{List, Text};
use rt_keys::TableError;
use rt_keys::keys::{document, has, others, unwanted, word};
use rt_keys::numbers::number_within;
use rt_keys::stop::{Stop, bad_sizes, printable, tested};
use rt_tech::{Mirror, Sizes, TableCause, Tech, Wish};
use std::alloc::Global;
use toml::Table;

// The keys of a sizes file.
const SIZES_KEYS: [&str; 10] = [
    "version",
    "cell",
    "mirror",
    "axis",
    "pivots",
    "kind",
    "device",
    "width_most",
    "height_most",
    "offset",
];

// Whether the byte is printable.
fn is_printable(byte: u8) -> bool
    ensures { result ≡ is_printable_of byte }
{
    32 <= byte && byte <= 126
}

// Whether all bytes are printable.
fn are_printable(bytes: &[u8]) -> bool
    ensures { result ≡ list_all is_printable_of bytes.now }
{
    bytes.iter().all(|byte| is_printable(*byte))
}

// Whether the bytes may name a cell.
fn is_cell(bytes: &[u8]) -> bool
    ensures { result ≡ is_cell_of bytes.now }
{
    1 <= bytes.len() && are_printable(bytes)
}

// Printable bytes as a text.
#[tactic(auto, using(crate::proofs::Cells::cell_is_text))]
fn cell_text(alloc: Global, bytes: &[u8]) -> Result<Text, Stop>
    requires { is_cell_of bytes.now ≡ true }
    ensures { Reads result None (λ t. t ≡ bytes.now) }
{
    match Vec::from_slice(alloc, bytes) {
        Ok(copied) => Ok(printable(List::of(copied))),
        Err(_) => Err(Stop::OutOfMemory),
    }
}

// The name of the cell.
#[tactic(auto, unfolding(crate::specs::SizesFile::cell_fault))]
fn cell<'a>(alloc: Global, file: &'a Table) -> Result<&'a str, Stop>
    ensures { Reads result (cell_fault (table_view file.now)) (λ s. (s.now ≡ word_at (codes "cell") (table_view file.now)) × (is_cell_of s.now ≡ true)) }
{
    let name = word(alloc, file, "cell")?;
    tested(alloc, "cell", TableCause::Range, is_cell(name.as_bytes()))?;
    Ok(name)
}

// Whether the word names a mirror.
fn is_mirror(word: &str) -> bool
    ensures { result ≡ is_mirror_of word.now }
{
    word == "none" || word == "find" || word == "axis"
}

// The mirror, with its axis.
#[tactic(auto, unfolding(crate::specs::SizesFile::mirror_fault, crate::specs::SizesFile::mirror_of))]
fn mirror(alloc: Global, file: &Table) -> Result<Mirror, Stop>
    ensures { Reads result (mirror_fault (table_view file.now)) (λ m. m ≡ mirror_of (table_view file.now)) }
{
    let kind = word(alloc, file, "mirror")?;
    tested(alloc, "mirror", TableCause::Range, is_mirror(kind))?;
    if kind == "axis" {
        let axis = number_within(alloc, file, "axis", -AXIS_LIMIT, AXIS_LIMIT)?;
        Ok(Mirror::At(axis))
    } else {
        unwanted(alloc, file, "axis")?;
        if kind == "find" {
            Ok(Mirror::Find)
        } else {
            Ok(Mirror::None)
        }
    }
}

// How many pivots a search may make.
#[tactic(auto, unfolding(crate::specs::SizesFile::pivots_fault))]
fn pivots(alloc: Global, file: &Table) -> Result<u64, Stop>
    ensures { Reads result (pivots_fault (table_view file.now)) (λ n. n ≡ pivots_of (table_view file.now)) }
{
    if has(file, "pivots") {
        let pivots = number_within(alloc, file, "pivots", 1, PIVOT_LIMIT as i64)?;
        Ok(pivots.unsigned_abs())
    } else {
        Ok(PIVOTS)
    }
}

// Refuses the keys of a later version.
#[tactic(auto, unfolding(crate::specs::SizesFile::later_fault))]
fn later(alloc: Global, file: &Table) -> Result<(), Stop>
    ensures { Reads result (later_fault (table_view file.now)) (λ _. Unit {0}) }
{
    unwanted(alloc, file, "width_most")?;
    unwanted(alloc, file, "height_most")?;
    unwanted(alloc, file, "offset")?;
    unwanted(alloc, file, "resistor")
}

// The sizes of kinds and of devices, after which the file has no other key.
#[tactic(auto, unfolding(crate::specs::SizesFile::lists_fault))]
fn lists(
    alloc: Global,
    target: &Tech,
    file: &Table,
) -> Result<(List<(u32, Wish)>, List<(u32, Wish)>), Stop>
    requires { IsGrid target.now.grid }
    ensures { Reads result (lists_fault target.now (table_view file.now)) (λ p. (p.0 ≡ kinds_of target.now (table_view file.now)) × (p.1 ≡ devices_of target.now (table_view file.now))) }
{
    let kinds = kinds(alloc, target, file)?;
    let devices = devices(alloc, target, file)?;
    later(alloc, file)?;
    others(alloc, file, &SIZES_KEYS)?;
    Ok((kinds, devices))
}

// What the file says.
#[tactic(auto, unfolding(crate::specs::SizesFile::sizes_fault))]
fn sizes(alloc: Global, target: &Tech, file: &Table) -> Result<Sizes, Stop>
    requires { IsGrid target.now.grid }
    ensures { Reads result (sizes_fault target.now (table_view file.now)) (λ s. s ≡ sizes_of target.now (table_view file.now)) }
{
    number_within(alloc, file, "version", 1, 1)?;
    let name = cell(alloc, file)?;
    let mirror = mirror(alloc, file)?;
    let pivots = pivots(alloc, file)?;
    let (kinds, devices) = lists(alloc, target, file)?;
    let cell = cell_text(alloc, name.as_bytes())?;
    Ok(Sizes {
        cell,
        mirror,
        pivots,
        kinds,
        devices,
    })
}

/// The sizes file that the bytes are, for a target table whose grid is 1 to 100. Sizes are in steps. BadToml comes
/// exactly where the bytes aren't a TOML document, and BadSizes with the first fault, in the order of the keys:
/// `version`, `cell`, `mirror`, `axis`, `pivots`, `kind`, `device`, and then those that aren't known. (This project's
/// own.)
pub fn read_sizes(alloc: Global, bytes: &[u8], target: &Tech) -> Result<Sizes, TableError>
    requires { IsGrid target.now.grid }
    ensures ok { IfOk result (DescribesSizes target.now bytes.now) }
    ensures err { IfErr result (RefusesFile target.now bytes.now) }
{
    let file = match document(alloc, bytes) {
        Ok(Some(file)) => file,
        Ok(None) => return Err(TableError::BadToml),
        Err(_) => return Err(TableError::OutOfMemory),
    };
    match sizes(alloc, target, &file) {
        Ok(sizes) => Ok(sizes),
        Err(stop) => Err(bad_sizes(alloc, stop)),
    }
}
