//! The entries of a list by their indexes: the first of those that are alike is found.
ghost use Rattle.std.specs.Prelude.{◌≡◌, ℕ, nat_eq, Some, None, if◌then◌else◌};
ghost use Rattle.std.specs.Option.{option_or};
ghost use Rattle.indexmap.specs.IndexMap.{get};
ghost use Rattle.toml.specs.View.{view, items_view};
ghost use Rattle.rt_keys.specs.Faults.{Reads};
ghost use Rattle.rt_keys.specs.Indexes.{as_index as as_index_of, index_of as index_at, has_index, indexed};

use crate::keys::member;
use crate::stop::Stop;
use indexmap::IndexMap;
use std::alloc::Global;
use toml::Value;

/// The largest index of a device. (This project's own: a number of 32 bits.)
pub const INDEX_LIMIT: i64 = 4_294_967_295;

/// The entries of a list by their indexes: each index with the number of the first entry that has it.
#[derive(Drop)]
pub struct Indexes<'a> {
    /// The numbers by the indexes.
    pub numbers: IndexMap<u32, u32>,
    /// The list.
    pub values: &'a [Value],
    ghost first: { (index : ℕ) → get nat_eq numbers index ≡ indexed index (items_view values.now) },
}

// The number as an index, where it may be one.
fn as_index(number: i64) -> Option<u32>
    ensures { result ≡ as_index_of number }
{
    if 0 <= number && number <= INDEX_LIMIT {
        Some(number as u32)
    } else {
        None
    }
}

// The index of an entry, where it has one.
fn index_of(value: &Value) -> Option<u32>
    ensures { result ≡ index_at (view value.now) }
{
    match member(value.as_table()?, "index") {
        Some(index) => as_index(index.as_integer()?),
        None => None,
    }
}

// Keeps the number of an entry with this index, unless one before it has the index.
fn keep(numbers: &mut IndexMap<u32, u32>, index: u32, place: usize) -> Result<(), Stop>
    ensures { Reads result None (λ _. (q : ℕ) → get nat_eq numbers.new q ≡ option_or (get nat_eq numbers.old q) (if nat_eq q index then Some place else None)) }
{
    if numbers.contains_key(&index) {
        return Ok(());
    }
    let Ok(number) = u32::try_from(place) else {
        return Err(Stop::OutOfMemory);
    };
    match numbers.insert(index, number) {
        Ok(_) => Ok(()),
        Err(_) => Err(Stop::OutOfMemory),
    }
}

// Keeps the number of an entry by its index, where it has one that no entry before it has.
fn note(numbers: &mut IndexMap<u32, u32>, place: usize, value: &Value) -> Result<(), Stop>
    ensures { Reads result None (λ _. (q : ℕ) → get nat_eq numbers.new q ≡ option_or (get nat_eq numbers.old q) (if has_index q (view value.now) then Some place else None)) }
{
    match index_of(value) {
        Some(index) => keep(numbers, index, place),
        None => Ok(()),
    }
}

/// The entries of a list by their indexes, which stand at their keys `index`. What has no index from 0 to
/// 4,294,967,295 is passed over. No entry is at fault: a stop is want of memory.
pub fn by_index<'a>(alloc: Global, values: &'a [Value]) -> Result<Indexes<'a>, Stop>
    ensures { Reads result None (λ n. n.values.now ≡ values.now) }
{
    let mut numbers = IndexMap::new(alloc);
    for (i, value) in values.iter().enumerate() {
        note(&mut numbers, i, value)?;
    }
    Ok(Indexes { numbers, values })
}

/// The number of the first entry with this index, from 0, where there is one.
pub fn find_index(indexes: &Indexes, index: u32) -> Option<u32>
    ensures { result ≡ indexed index (items_view indexes.now.values.now) }
{
    indexes.numbers.get(&index).copied()
}
