//! Lists of two tables, compared entry by entry.
ghost use Rattle.std.specs.Prelude.{◌≡◌, Option, false};
ghost use Rattle.std.specs.Fmt.{decimal};
ghost use Rattle.rt_tech.specs.declared.table.Tech.{Tech as TechValue};
ghost use Rattle.rt_keys.specs.declared.stop.Fault.{Fault as FaultValue};
ghost use Rattle.rt_keys.specs.Faults.{Reads, Stops, within};
ghost use Rattle.rt_tables.specs.Forms.{differs, list_difference};

use itoa::Buffer;
use rt_keys::stop::{Stop, at, at_entry, refused};
use rt_tech::{TableCause, Tech};
use std::alloc::Global;

// Two tables that are compared.
#[derive(Drop)]
pub(crate) struct Tables<'a> {
    pub source: &'a Tech,
    pub target: &'a Tech,
}

// The entries of two tables' lists, compared but for their numbers.
pub(crate) trait Compared {
    ghost difference: { TechValue → TechValue → Self → Self → Option FaultValue };

    fn compare(&self, alloc: Global, other: &Self, tables: &Tables) -> Result<(), Stop>
        ensures { Reads result (difference tables.now.source.now tables.now.target.now self.now other.now) (λ _. Unit {0}) };
}

// One of two lists has no entry here.
fn further(alloc: Global, index: usize) -> Stop
    ensures { Stops result (differs (decimal index) false) }
{
    let mut digits = Buffer::new();
    refused(alloc, digits.format(index), TableCause::Clash)
}

// Compares two lists entry by entry.
fn compare_lists<T: Compared>(
    alloc: Global,
    tables: &Tables,
    ours: &[T],
    theirs: &[T],
) -> Result<(), Stop>
    ensures { Reads result (list_difference (T.difference tables.now.source.now tables.now.target.now) 0 ours.now theirs.now) (λ _. Unit {0}) }
{
    for (i, entry) in ours.iter().enumerate() {
        let Some(other) = theirs.get(i) else {
            return Err(further(alloc, i));
        };
        at_entry(alloc, i, entry.compare(alloc, other, tables))?;
    }
    match theirs.get(ours.len()) {
        Some(_) => Err(further(alloc, ours.len())),
        None => Ok(()),
    }
}

// Compares the lists at a key of the two tables.
pub(crate) fn compare_at<T: Compared>(
    alloc: Global,
    key: &str,
    tables: &Tables,
    ours: &[T],
    theirs: &[T],
) -> Result<(), Stop>
    ensures { Reads result (within key.now (list_difference (T.difference tables.now.source.now tables.now.target.now) 0 ours.now theirs.now)) (λ _. Unit {0}) }
{
    at(alloc, key, compare_lists(alloc, tables, ours, theirs))
}
