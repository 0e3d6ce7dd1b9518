//! A desk in memory, whose calls fail as a test plans.
ghost use Rattle.std.specs.Prelude.{◌≡◌, ◌↔◌, [], ◌∷◌, ◌++◌, IsTrue, IsErrOf, OnOk, OnErr, option_copied, position};
ghost use Rattle.rt_desk.specs.Desk.{Fetches, Stores, Says, Stored, raised};
ghost use Rattle.rt_desk.specs.Entries.{is_named, file_in, NamesDiffer};
ghost use Rattle.rt_desk.specs.Memory.{seen_of, files_of, said_of, plan_of, fetch_faults_of, store_faults_of, say_faults_of, IsPlanned, CountsCall, CountsFailed, IsNew, SameButPlan};

use crate::outside::{Desk, DeskError};
use rt_base::OutOfMemory;
use std::alloc::{AllocError, Global};

/// A desk in memory. It always tells its files and what was said.
///
/// A call fails exactly where its number is planned to: calls are numbered from 0 on, over `fetch`,
/// `store` and `say` together. A planned call answers `Failed`, raises its count of faults, and does
/// nothing else. The number of calls and the counts stand still at `u64::MAX`. The rule is this
/// project's own.
#[derive(Drop)]
pub struct MemoryDesk {
    alloc: Global,
    files: Vec<(String, Vec<u8>)>,
    said: Vec<u8>,
    planned: Vec<u64>,
    calls: u64,
    fetch_faults: u64,
    store_faults: u64,
    say_faults: u64,
}

/// Whether no two of the files have one name, as `MemoryDesk::new` requires. The rule is this project's
/// own.
pub fn names_differ(files: &[(String, Vec<u8>)]) -> bool
    ensures { IsTrue result ↔ NamesDiffer files.now }
{
    let mut rest = files;
    while let Some((file, others)) = rest.split_first() {
        if find(others, file.0.as_str()).is_some() {
            return false;
        }
        rest = others;
    }
    true
}

// The bytes of the first file of that name.
fn find<'a>(files: &'a [(String, Vec<u8>)], name: &str) -> Option<&'a [u8]>
    ensures { option_copied result ≡ file_in files.now name.now }
{
    files
        .iter()
        .find(|file| file.0.as_str() == name)
        .map(|file| file.1.as_slice())
}

// Where the first file of that name stands.
fn place_of(files: &[(String, Vec<u8>)], name: &str) -> Option<usize>
    ensures { result ≡ position (is_named name.now) files.now }
{
    files.iter().position(|file| file.0.as_str() == name)
}

// Makes `bytes` the file of that name.
fn put(
    files: &mut Vec<(String, Vec<u8>)>,
    alloc: Global,
    name: &str,
    bytes: &[u8],
) -> Result<(), AllocError>
    ensures ok { OnOk result (Stored (file_in files.old.items) (file_in files.new.items) name.now bytes.now) }
    ensures err { OnErr result (files.new.items ≡ files.old.items) }
{
    let copy = Vec::from_slice(alloc, bytes)?;
    if let Some(place) = place_of(files, name) {
        let file = &mut files[place];
        file.1 = copy;
    } else {
        let key = String::from_str(alloc, name)?;
        files.push((key, copy))?;
    }
    Ok(())
}

impl MemoryDesk {
    /// A desk with these files: nothing is said, nothing is planned to fail, and no fault is counted. It
    /// takes no memory.
    pub fn new(alloc: Global, files: Vec<(String, Vec<u8>)>) -> MemoryDesk
        requires { NamesDiffer files.items }
        ensures { IsNew result files.items }
    {
        MemoryDesk {
            alloc,
            files,
            said: Vec::new(alloc),
            planned: Vec::new(alloc),
            calls: 0,
            fetch_faults: 0,
            store_faults: 0,
            say_faults: 0,
        }
    }

    /// Plans that the call of number `nth` fails; the first call of the desk is number 0, whichever it is.
    /// The error is that there was no memory for the plan, which is then as before.
    pub fn fail_at(&mut self, nth: u64) -> Result<(), OutOfMemory>
        ensures ok { OnOk result (plan_of self.new ≡ plan_of self.old ++ nth ∷ []) }
        ensures err { OnErr result (plan_of self.new ≡ plan_of self.old) }
        ensures rest { SameButPlan self.old self.new }
    {
        self.planned.push(nth)?;
        Ok(())
    }

    /// The bytes of the file `name`, and None exactly where it isn't there. It is not counted as a call.
    pub fn file(&self, name: &str) -> Option<&[u8]>
        ensures { option_copied result ≡ files_of self.now name.now }
    {
        find(&self.files, name)
    }

    /// All bytes said so far. It is not counted as a call.
    pub fn said(&self) -> &[u8]
        ensures { result.now ≡ said_of self.now }
    {
        self.said.as_slice()
    }

    // Takes the number of a call, and says whether that call is planned to fail.
    fn begin_call(&mut self) -> bool
        ensures planned { IsTrue result ↔ IsPlanned self.old }
        ensures rest { self.new ≡ record self.old { calls = raised self.old.calls } }
    {
        let is_planned = self.planned.contains(&self.calls);
        self.calls = self.calls.saturating_add(1);
        is_planned
    }
}

impl Desk for MemoryDesk {
    ghost seen = { seen_of };

    /// As `Desk::fetch`. It fails exactly where the call is planned to, and then counts a fault.
    fn fetch(&mut self, alloc: Global, name: &str, most: u64) -> Result<Vec<u8>, DeskError>
        ensures planned { IsErrOf result DeskError.Failed ↔ IsPlanned self.old }
        ensures call { CountsCall self.old self.new }
        ensures fault { CountsFailed (fetch_faults_of self.old) (fetch_faults_of self.new) result }

        // the trait's
        ensures fetches { Fetches (seen_of self.old) (seen_of self.new) name.now most result }
    {
        if self.begin_call() {
            self.fetch_faults = self.fetch_faults.saturating_add(1);
            return Err(DeskError::Failed);
        }
        let Some(bytes) = self.file(name) else {
            return Err(DeskError::Missing);
        };
        if most < bytes.len() as u64 {
            return Err(DeskError::TooLong);
        }
        Ok(Vec::from_slice(alloc, bytes)?)
    }

    /// As `Desk::store`. It fails exactly where the call is planned to, and then counts a fault. After any
    /// error no file has changed.
    fn store(&mut self, name: &str, bytes: &[u8]) -> Result<(), DeskError>
        ensures planned { IsErrOf result DeskError.Failed ↔ IsPlanned self.old }
        ensures call { CountsCall self.old self.new }
        ensures fault { CountsFailed (store_faults_of self.old) (store_faults_of self.new) result }
        ensures err { OnErr result (files_of self.new ≡ files_of self.old) }

        // the trait's
        ensures stores { Stores (seen_of self.old) (seen_of self.new) name.now bytes.now result }
    {
        if self.begin_call() {
            self.store_faults = self.store_faults.saturating_add(1);
            return Err(DeskError::Failed);
        }
        put(&mut self.files, self.alloc, name, bytes)?;
        Ok(())
    }

    /// As `Desk::say`. It fails exactly where the call is planned to, and then counts a fault. After any
    /// error nothing more was said.
    fn say(&mut self, bytes: &[u8]) -> Result<(), DeskError>
        ensures planned { IsErrOf result DeskError.Failed ↔ IsPlanned self.old }
        ensures call { CountsCall self.old self.new }
        ensures fault { CountsFailed (say_faults_of self.old) (say_faults_of self.new) result }
        ensures err { OnErr result (said_of self.new ≡ said_of self.old) }

        // the trait's
        ensures says { Says (seen_of self.old) (seen_of self.new) bytes.now result }
    {
        if self.begin_call() {
            self.say_faults = self.say_faults.saturating_add(1);
            return Err(DeskError::Failed);
        }
        self.said.extend_from_slice(bytes)?;
        Ok(())
    }
}
