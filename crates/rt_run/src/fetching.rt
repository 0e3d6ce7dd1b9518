//! The four files of a run, and the first of them that isn't fetched.
ghost use Rattle.std.specs.Prelude.{◌≡◌, IfOk, IfErr};
ghost use Rattle.rt_desk.specs.Desk.{IsFetched, OnlyFetches};
ghost use Rattle.rt_run.specs.Fetched.{AreFetched, IsNotFetched, FetchFails, fetched_names};
ghost use Rattle.rt_run.specs.Given.{names_in, contents_in};

use crate::words::Retarget;
use rt_desk::{Desk, DeskError};
use std::alloc::Global;

/// The most bytes of a file that is fetched.
pub const FILE_LIMIT: u64 = 16_777_216;

/// The bytes of the four files.
#[derive(Drop)]
pub struct Inputs {
    /// The stream of the source.
    pub source: Vec<u8>,
    /// The source's rule table.
    pub stable: Vec<u8>,
    /// The target's rule table.
    pub ttable: Vec<u8>,
    /// The sizes file.
    pub sizes: Vec<u8>,
}

/// A file that wasn't fetched.
#[derive(Drop)]
pub struct Unfetched<'a> {
    /// Why: the desk failed, the file isn't there, it is too long, or there was no memory.
    pub error: DeskError,
    /// The word that names it.
    pub name: &'a str,
}

/// Fetches the four files in order, or tells the first that wasn't fetched, and why.
pub fn fetch_all<'a, D: Desk>(
    alloc: Global,
    names: &Retarget<'a>,
    desk: &mut D,
) -> Result<Inputs, Unfetched<'a>>
    ensures fetched { IfOk result (λ files. AreFetched (D.seen desk.old).files (names_in names.now) (contents_in files)) }
    ensures refused { IfErr result (λ u. IsNotFetched (D.seen desk.old) (D.seen desk.new) (fetched_names (names_in names.now)) u.name.now u.error) }
    ensures stays { OnlyFetches (D.seen desk.old) (D.seen desk.new) }
{
    let source = fetch(alloc, names.source, desk)?;
    let stable = fetch(alloc, names.stable, desk)?;
    let ttable = fetch(alloc, names.ttable, desk)?;
    let sizes = fetch(alloc, names.sizes, desk)?;
    Ok(Inputs {
        source,
        stable,
        ttable,
        sizes,
    })
}

// Fetches a file.
fn fetch<'a, D: Desk>(alloc: Global, name: &'a str, desk: &mut D) -> Result<Vec<u8>, Unfetched<'a>>
    ensures fetched { IfOk result (λ bytes. IsFetched (D.seen desk.old).files name.now FILE_LIMIT bytes.items) }
    ensures named { IfErr result (λ u. u.name.now ≡ name.now) }
    ensures refused { IfErr result (λ u. FetchFails (D.seen desk.old) (D.seen desk.new) name.now u.error) }
    ensures stays { OnlyFetches (D.seen desk.old) (D.seen desk.new) }
{
    match desk.fetch(alloc, name, FILE_LIMIT) {
        Ok(bytes) => Ok(bytes),
        Err(error) => Err(Unfetched { error, name }),
    }
}
