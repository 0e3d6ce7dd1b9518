ghost use Rattle.std.specs.Prelude.{◌≡◌, ◌∷◌, ◌++◌, false, Some, IfOk, map, drop};
ghost use Rattle.std.specs.Fmt.{decimal};
ghost use Rattle.rt_base.specs.Text.{IsText};
ghost use Rattle.rt_keys.specs.Answers.{IsBadTable, IsBadSizes};
ghost use Rattle.rt_keys.specs.Faults.{written, written_byte, Reads, Stops, IsStopWithin, IsWithin, test, test_here, within};

use crate::error::TableError;
use itoa::Buffer;
use rt_base::{List, OutOfMemory, Text};
use rt_tech::TableCause;
use std::alloc::{AllocError, Global};

/// What is wrong with a document, and where.
#[derive(Drop)]
pub struct Fault {
    /// The path from here to the key, with a dot before each step. Empty where the value itself is at fault.
    pub path: List<u8>,
    /// What is wrong there.
    pub cause: TableCause,
}

/// Why a document isn't read to its end.
#[derive(Drop)]
pub enum Stop {
    /// It has this fault.
    At(Fault),
    /// There was no memory.
    OutOfMemory,
}

impl From<OutOfMemory> for Stop {
    fn from(_: OutOfMemory) -> Stop
        ensures { result ≡ Stop.OutOfMemory }
    {
        Stop::OutOfMemory
    }
}

impl From<AllocError> for Stop {
    fn from(_: AllocError) -> Stop
        ensures { result ≡ Stop.OutOfMemory }
    {
        Stop::OutOfMemory
    }
}

// A path of one step and then more.
fn path(alloc: Global, key: &str, more: &[u8]) -> Result<List<u8>, OutOfMemory>
    ensures { IfOk result (λ p. p ≡ (46 ∷ key.now) ++ more.now) }
{
    let mut path = Vec::from_slice(alloc, b".")?;
    path.extend_from_slice(key.as_bytes())?;
    path.extend_from_slice(more)?;
    Ok(List::of(path))
}

/// The stop by a fault at the key.
pub fn refused(alloc: Global, key: &str, cause: TableCause) -> Stop
    ensures { Stops result (test key.now cause false) }
{
    match path(alloc, key, b"") {
        Ok(path) => Stop::At(Fault { path, cause }),
        Err(_) => Stop::OutOfMemory,
    }
}

/// The stop by a fault of the value itself.
pub fn refused_here(alloc: Global, cause: TableCause) -> Stop
    ensures { Stops result (test_here cause false) }
{
    Stop::At(Fault {
        path: List::new(alloc),
        cause,
    })
}

/// Refuses the key by this cause, unless the test holds.
pub fn tested(alloc: Global, key: &str, cause: TableCause, holds: bool) -> Result<(), Stop>
    ensures { Reads result (test key.now cause holds) (λ _. Unit {0}) }
{
    if holds {
        Ok(())
    } else {
        Err(refused(alloc, key, cause))
    }
}

/// Refuses the value itself by this cause, unless the test holds.
pub fn tested_here(alloc: Global, cause: TableCause, holds: bool) -> Result<(), Stop>
    ensures { Reads result (test_here cause holds) (λ _. Unit {0}) }
{
    if holds {
        Ok(())
    } else {
        Err(refused_here(alloc, cause))
    }
}

// The stop of the value at a key, seen from the table around it.
fn under(alloc: Global, key: &str, fault: Fault) -> Stop
    ensures { Stops result (within key.now (Some fault)) }
{
    match path(alloc, key, fault.path.as_slice()) {
        Ok(path) => Stop::At(Fault {
            path,
            cause: fault.cause,
        }),
        Err(_) => Stop::OutOfMemory,
    }
}

/// What was read at a key, seen from the table around it.
pub fn at<T: Drop>(alloc: Global, key: &str, read: Result<T, Stop>) -> Result<T, Stop>
    ensures { IsWithin key.now read result }
{
    match read {
        Ok(value) => Ok(value),
        Err(stop) => Err(stopped_at(alloc, key, stop)),
    }
}

// A stop within the value at a key, seen from the table around it.
fn stopped_at(alloc: Global, key: &str, stop: Stop) -> Stop
    ensures { IsStopWithin key.now stop result }
{
    match stop {
        Stop::At(fault) => under(alloc, key, fault),
        Stop::OutOfMemory => Stop::OutOfMemory,
    }
}

/// What was read of an entry of a list, seen from the table around the list.
pub fn at_entry<T: Drop>(alloc: Global, index: usize, read: Result<T, Stop>) -> Result<T, Stop>
    ensures { IsWithin (decimal index) read result }
{
    match read {
        Ok(value) => Ok(value),
        Err(stop) => {
            let mut digits = Buffer::new();
            Err(stopped_at(alloc, digits.format(index), stop))
        }
    }
}

// The path as an answer writes it.
#[tactic(auto, using(crate::proofs::Texts::all_printable))]
fn written(alloc: Global, path: &[u8]) -> Result<Text, OutOfMemory>
    ensures { IfOk result (λ t. t ≡ written path.now) }
{
    let bytes = written_bytes(alloc, steps(path))?;
    Ok(printable(List::of(bytes)))
}

// The path without its first dot.
fn steps(path: &[u8]) -> &[u8]
    ensures { result.now ≡ drop 1 path.now }
{
    match path.split_first() {
        Some((_, steps)) => steps,
        None => path,
    }
}

// The bytes as an answer writes them.
fn written_bytes(alloc: Global, bytes: &[u8]) -> Result<Vec<u8>, OutOfMemory>
    ensures { IfOk result (λ v. v.items ≡ map written_byte bytes.now) }
{
    Ok(bytes.iter().map(|byte| written_byte(*byte)).collect(alloc)?)
}

/// The bytes, which are printable, as a text.
pub fn printable(bytes: List<u8>) -> Text
    requires { IsText bytes }
    ensures { result ≡ bytes }
{
    Text::of(bytes).unwrap()
}

// A byte as an answer writes it.
fn written_byte(byte: u8) -> u8
    ensures { result ≡ written_byte byte }
{
    if 32 <= byte && byte <= 126 {
        byte
    } else {
        b'?'
    }
}

/// The refusal of a rule table: BadTable by the fault, OutOfMemory where there was no memory.
pub fn bad_table(alloc: Global, stop: Stop) -> TableError
    ensures { IsBadTable stop result }
{
    match stop {
        Stop::At(fault) => match written(alloc, fault.path.as_slice()) {
            Ok(key) => TableError::BadTable {
                key,
                cause: fault.cause,
            },
            Err(_) => TableError::OutOfMemory,
        },
        Stop::OutOfMemory => TableError::OutOfMemory,
    }
}

/// The refusal of a sizes file: BadSizes by the fault, OutOfMemory where there was no memory.
pub fn bad_sizes(alloc: Global, stop: Stop) -> TableError
    ensures { IsBadSizes stop result }
{
    match stop {
        Stop::At(fault) => match written(alloc, fault.path.as_slice()) {
            Ok(key) => TableError::BadSizes {
                key,
                cause: fault.cause,
            },
            Err(_) => TableError::OutOfMemory,
        },
        Stop::OutOfMemory => TableError::OutOfMemory,
    }
}
