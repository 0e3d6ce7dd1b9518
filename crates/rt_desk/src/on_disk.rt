//! A desk over the files and the standard output of the program.
ghost use Rattle.std.specs.Prelude.{◌≡◌, ◌+◌, ◌≤◌, None, OnOk, length};
ghost use Rattle.std.specs.Io.KnownBytes.{Appends};
ghost use Rattle.rt_desk.specs.Desk.{Fetches, Stores, Says};
ghost use Rattle.rt_desk.specs.OnDisk.{IsRead, faults_after, CountsErrors, seen_at, fetch_faults_at, store_faults_at, say_faults_at};

use crate::outside::{Desk, DeskError};
use std::alloc::Global;
use std::fs::{File, OpenOptions, Permissions};
use std::io::{ErrorKind, Read, Write};
use std::rt::Files;
use std::{fs, io, str};

/// A desk over real files and the standard output: the trusted edge, since no proof sees what the system
/// does. Names are paths, taken relative to the folder that the program runs in.
///
/// It tells neither its files nor what was said. It counts each error of a call but want of memory, and a
/// count stands still at `u64::MAX`. A file that isn't there is answered `Failed`. The rule is this
/// project's own. Which bytes a file gave or took, no clause of this desk says; of its loops that read
/// and write, clauses say it wherever a reader or a writer tells its bytes.
#[derive(Drop)]
pub struct FileDesk<'a, R> {
    rt: &'a R,
    fetch_faults: u64,
    store_faults: u64,
    say_faults: u64,
    refused: Option<RefusedStore>,
}

/// The last store of a `FileDesk` that failed: which file, and why. No clause speaks of it; it is for a line that a person
/// reads.
#[derive(Drop)]
pub struct RefusedStore {
    /// The name of the file; None where there was no memory to keep it.
    pub name: Option<String>,
    /// What the system answered.
    pub kind: ErrorKind,
}

// How many bytes are asked of a file at a time.
const PIECE: usize = 8192;

// The most bytes of a path; the system takes none that is longer.
const PATH_LIMIT: usize = 4096;

// What is put behind the name of a file for the name of the new one that is to take its place.
const ENDING: &[u8] = b".part";

// How many names are tried for the new file. Each behind the first has a point and the two digits of its number more.
const TRIES: u8 = 100;

// How many bytes that point and the digits are.
const NUMBER_LENGTH: usize = 3;

impl<'a, R: Files + Print> FileDesk<'a, R> {
    /// A desk over the files and the standard output of `rt`, which has counted no fault. It takes no
    /// memory.
    pub fn new(rt: &'a R) -> FileDesk<'a, R>
        ensures fetch_faults { fetch_faults_at result ≡ 0 }
        ensures store_faults { store_faults_at result ≡ 0 }
        ensures say_faults { say_faults_at result ≡ 0 }
    {
        FileDesk {
            rt,
            fetch_faults: 0,
            store_faults: 0,
            say_faults: 0,
            refused: None,
        }
    }

    /// The last store that failed, or None where none did.
    pub fn refused_store(&self) -> Option<&RefusedStore> {
        self.refused.as_ref()
    }
}

// The count of faults after a call that ended in this error.
fn counted(count: u64, error: DeskError) -> u64
    ensures { result ≡ faults_after count error }
{
    match error {
        DeskError::OutOfMemory => count,
        _ => count.saturating_add(1),
    }
}

// Reads to the file's end, and stops as soon as there are more than `most` bytes. A read that a signal
// interrupts is tried again.
fn read_within<F: Read>(file: &mut F, alloc: Global, most: u64) -> Result<Vec<u8>, DeskError>
    ensures { IsRead (F.remaining file.old) most result }
{
    let mut bytes = Vec::new(alloc);
    let mut piece = [0u8; PIECE];
    for _ in 0..u64::MAX {
        match file.read(&mut piece) {
            Ok(0) => return Ok(bytes),
            Ok(count) => {
                if most - (bytes.len() as u64) < count as u64 {
                    return Err(DeskError::TooLong);
                }
                bytes.extend_from_slice(&piece[..count])?;
            }
            Err(error) => {
                if error.kind() != ErrorKind::Interrupted {
                    return Err(DeskError::from(error));
                }
            }
        }
    }
    Err(DeskError::Failed)
}

// Writes all the bytes. To take none of a piece that isn't empty is a failure, and a write that a signal
// interrupts is tried again.
fn write_whole<W: Write>(to: &mut W, bytes: &[u8]) -> io::Result<()>
    ensures { OnOk result (Appends (W.contents to.old) (W.contents to.new) bytes.now) }
{
    let mut rest = bytes;
    for _ in 0..u64::MAX {
        if rest.is_empty() {
            to.flush()?;
            return Ok(());
        }
        match to.write(rest) {
            Ok(0) => return Err(io::Error::from(ErrorKind::WriteZero)),
            Ok(count) => rest = &rest[count..],
            Err(error) => {
                if error.kind() != ErrorKind::Interrupted {
                    return Err(error);
                }
            }
        }
    }
    Err(io::Error::from(ErrorKind::Other))
}

// Opens a file and reads it to its end.
fn read_file<R: Files>(rt: &R, alloc: Global, name: &str, most: u64) -> Result<Vec<u8>, DeskError>
    ensures { IsRead None most result }
{
    let mut file = fs::open(rt, name)?;
    read_within(&mut file, alloc, most)
}

// Makes the bytes the whole file. A plain file that is there is replaced by a new one beside it, so that it stays as
// it was where that fails. What isn't there, and a link or a device, is written as it stands.
fn store_file<R: Files>(rt: &R, name: &str, bytes: &[u8]) -> io::Result<()> {
    match permissions_of(rt, name) {
        Some(permissions) => replace_file(rt, name, permissions, bytes),
        None => write_file(rt, name, bytes),
    }
}

// The permissions of the plain file of that name; None where there is none: no file, or a link, a device or a folder.
fn permissions_of<R: Files>(rt: &R, name: &str) -> Option<Permissions> {
    match fs::symlink_metadata(rt, name) {
        Ok(metadata) if metadata.is_file() => Some(metadata.permissions()),
        _ => None,
    }
}

// Writes a new file beside the old one and moves it into its place. An old file that may not be written isn't
// replaced either. The new file's name is the first of TRIES that is free: a file that stands there already, as one that
// a killed run left, is left as it is.
fn replace_file<R: Files>(
    rt: &R,
    name: &str,
    permissions: Permissions,
    bytes: &[u8],
) -> io::Result<()> {
    OpenOptions::new().write(true).open(rt, name)?;
    for nth in 0..TRIES {
        let mut room = [0u8; PATH_LIMIT];
        let Some(beside) = name_beside(&mut room, name, nth) else {
            return Err(io::Error::from(ErrorKind::InvalidFilename));
        };
        match File::create_new(rt, beside) {
            Ok(mut file) => {
                let result = fill_and_move(rt, &mut file, name, beside, permissions, bytes);
                if result.is_err() {
                    let _ = fs::remove_file(rt, beside);
                }
                return result;
            }
            Err(error) => {
                if error.kind() != ErrorKind::AlreadyExists {
                    return Err(error);
                }
            }
        }
    }
    Err(io::Error::from(ErrorKind::AlreadyExists))
}

// The name of the new file: of the first one the old file's name with the ending, as `OUT.part`, and of the others that
// with their number, as `OUT.part.01`. None where it is longer than a path can be.
fn name_beside<'a>(room: &'a mut [u8; PATH_LIMIT], name: &str, nth: u8) -> Option<&'a str> {
    if PATH_LIMIT - ENDING.len() - NUMBER_LENGTH < name.len() {
        return None;
    }
    let start = name.len();
    let end = start + ENDING.len();
    put_at(room, 0, name.as_bytes());
    put_at(room, start, ENDING);
    if nth == 0 {
        return str::from_utf8(&room[..end]).ok();
    }
    put_at(room, end, &[b'.', b'0' + nth / 10, b'0' + nth % 10]);
    str::from_utf8(&room[..end + NUMBER_LENGTH]).ok()
}

// Puts bytes into the room from a place on.
fn put_at(room: &mut [u8; PATH_LIMIT], start: usize, bytes: &[u8])
    requires { start + length bytes.now ≤ PATH_LIMIT }
{
    room[start..start + bytes.len()].copy_from_slice(bytes);
}

// Writes the new file, with the old one's permissions, and moves it into the old one's place.
fn fill_and_move<R: Files>(
    rt: &R,
    file: &mut R::File,
    name: &str,
    beside: &str,
    permissions: Permissions,
    bytes: &[u8],
) -> io::Result<()> {
    write_whole(file, bytes)?;
    fs::set_permissions(rt, beside, permissions)?;
    fs::rename(rt, beside, name)
}

// Makes or empties a file and writes it.
fn write_file<R: Files>(rt: &R, name: &str, bytes: &[u8]) -> io::Result<()> {
    let mut file = fs::create(rt, name)?;
    write_whole(&mut file, bytes)
}

impl<'a, R: Files + Print + AllocGlobal> Desk for FileDesk<'a, R> {
    ghost seen = { seen_at };

    /// As `Desk::fetch`. A file that isn't there is `Failed`, and each error but want of memory is counted.
    fn fetch(&mut self, alloc: Global, name: &str, most: u64) -> Result<Vec<u8>, DeskError>
        ensures counted { CountsErrors (fetch_faults_at self.old) (fetch_faults_at self.new) result }

        // the trait's
        ensures fetches { Fetches (seen_at self.old) (seen_at self.new) name.now most result }
    {
        let result = read_file(self.rt, alloc, name, most);
        if let Err(error) = &result {
            self.fetch_faults = counted(self.fetch_faults, *error);
        }
        result
    }

    /// As `Desk::store`. A plain file that is there is replaced by a new one with its permissions, which is written
    /// beside it under the name with `.part` at the end, or, where that is taken, with `.part.01` to `.part.99`; so it
    /// stays as it was where that fails. It overwrites no other file, and leaves none of its own. Each error but want of
    /// memory is counted, and the last one is kept for `refused_store`.
    fn store(&mut self, name: &str, bytes: &[u8]) -> Result<(), DeskError>
        ensures counted { CountsErrors (store_faults_at self.old) (store_faults_at self.new) result }

        // the trait's
        ensures stores { Stores (seen_at self.old) (seen_at self.new) name.now bytes.now result }
    {
        match store_file(self.rt, name, bytes) {
            Ok(()) => Ok(()),
            Err(error) => {
                let kind = error.kind();
                let cause = DeskError::from(error);
                self.store_faults = counted(self.store_faults, cause);
                let name = String::from_str(self.rt.alloc(), name).ok();
                self.refused = Some(RefusedStore { name, kind });
                Err(cause)
            }
        }
    }

    /// As `Desk::say`. Each error but want of memory is counted.
    fn say(&mut self, bytes: &[u8]) -> Result<(), DeskError>
        ensures counted { CountsErrors (say_faults_at self.old) (say_faults_at self.new) result }

        // the trait's
        ensures says { Says (seen_at self.old) (seen_at self.new) bytes.now result }
    {
        match write_whole(&mut io::writer(self.rt), bytes) {
            Ok(()) => Ok(()),
            Err(error) => {
                let cause = DeskError::from(error);
                self.say_faults = counted(self.say_faults, cause);
                Err(cause)
            }
        }
    }
}
