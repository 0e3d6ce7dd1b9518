//! The entries of a list by their names: the first of those that are alike is found.
ghost use Rattle.std.specs.Prelude.{◌≡◌, ℕ, List as ListValue, bytes_eq, Some, None, MatchOption, if◌then◌else◌};
ghost use Rattle.std.specs.Option.{option_or};
ghost use Rattle.indexmap.specs.IndexMap.{get_by};
ghost use Rattle.toml.specs.View.{view, items_view};
ghost use Rattle.rt_keys.specs.Faults.{Reads};
ghost use Rattle.rt_keys.specs.Names.{name_of as name_at, is_named, named, is_first as is_first_of};

use crate::keys::member;
use crate::names::Names;
use crate::stop::Stop;
use indexmap::IndexMap;
use std::alloc::Global;
use toml::Value;

// The name of an entry, where it has one.
fn name_of(value: &Value) -> Option<&str>
    ensures { MatchOption result (name_at (view value.now) ≡ None) (λ s. name_at (view value.now) ≡ Some s.now) }
{
    match member(value.as_table()?, "name") {
        Some(name) => name.as_str(),
        None => None,
    }
}

// Keeps the number of an entry by this name, unless one before it has the name.
fn keep<'a>(numbers: &mut IndexMap<&'a str, u32>, name: &'a str, place: usize) -> Result<(), Stop>
    ensures { Reads result None (λ _. (q : ListValue ℕ) → get_by (λ k. bytes_eq q k.now) numbers.new ≡ option_or (get_by (λ k. bytes_eq q k.now) numbers.old) (if bytes_eq name.now q then Some place else None)) }
{
    if numbers.contains_key(name) {
        return Ok(());
    }
    let Ok(number) = u32::try_from(place) else {
        return Err(Stop::OutOfMemory);
    };
    match numbers.insert(name, number) {
        Ok(_) => Ok(()),
        Err(_) => Err(Stop::OutOfMemory),
    }
}

// Keeps the number of an entry by its name, where it has one that no entry before it has.
fn note<'a>(
    numbers: &mut IndexMap<&'a str, u32>,
    place: usize,
    value: &'a Value,
) -> Result<(), Stop>
    ensures { Reads result None (λ _. (q : ListValue ℕ) → get_by (λ k. bytes_eq q k.now) numbers.new ≡ option_or (get_by (λ k. bytes_eq q k.now) numbers.old) (if is_named q (view value.now) then Some place else None)) }
{
    match name_of(value) {
        Some(name) => keep(numbers, name, place),
        None => Ok(()),
    }
}

/// The entries of a list by their names, which stand at their keys `name`. What has no name is passed over. No entry
/// is at fault: a stop is want of memory.
pub fn names<'a>(alloc: Global, values: &'a [Value]) -> Result<Names<'a>, Stop>
    ensures { Reads result None (λ n. n.values.now ≡ values.now) }
{
    let mut numbers = IndexMap::new(alloc);
    for (i, value) in values.iter().enumerate() {
        note(&mut numbers, i, value)?;
    }
    Ok(Names { numbers, values })
}

/// The number of the first entry by this name, from 0, where there is one.
pub fn find(names: &Names, name: &str) -> Option<u32>
    ensures { result ≡ named name.now (items_view names.now.values.now) }
{
    names.numbers.get(name).copied()
}

/// Whether an entry was found, and at this place.
pub fn is_first(place: usize, found: Option<u32>) -> bool
    ensures { result ≡ is_first_of place found }
{
    match found {
        Some(number) => number as usize == place,
        None => false,
    }
}
