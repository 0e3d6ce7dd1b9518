ghost use Rattle.std.specs.Prelude.{◌≡◌, pos, Some, None, MatchOption};
ghost use Rattle.toml.specs.Data.{get_item};
ghost use Rattle.toml.specs.View.{view, table_view, items_view};
ghost use Rattle.rt_keys.specs.Numbers.{is_within as is_within_of, place_fault, number_here_fault, place as place_of, pair_fault, pair_of, may_be as may_be_of, kept_in as kept_of, measure_of, number_fault, length_fault, length_of};
ghost use Rattle.rt_keys.specs.Document.{number as number_at, as_number, count as count_of};
ghost use Rattle.rt_keys.specs.Faults.{Reads};

use crate::keys::{entry_number, number};
use crate::scale::Scale;
use crate::stop::{Stop, at_entry, tested, tested_here};
use rt_tech::limits::{LAYER_LIMIT, LENGTH_LIMIT};
use rt_tech::{TableCause, Which};
use std::alloc::Global;
use toml::{Table, Value};

// Whether the number lies between the two.
fn is_within(low: i64, high: i64, number: i64) -> bool
    ensures { result ≡ is_within_of low high number }
{
    low <= number && number <= high
}

/// The whole number at a key that has to be there, which lies between the two. Missing where there is none, Form where
/// it holds another type, Range where the number lies outside.
pub fn number_within(
    alloc: Global,
    table: &Table,
    key: &str,
    low: i64,
    high: i64,
) -> Result<i64, Stop>
    ensures { Reads result (number_fault low high key.now (table_view table.now)) (λ n. n ≡ number_at key.now (table_view table.now)) }
{
    let number = number(alloc, table, key)?;
    tested(alloc, key, TableCause::Range, is_within(low, high, number))?;
    Ok(number)
}

// Whether a table of this scale may write the length.
fn may_be(scale: &Scale, low: i64, number: i64) -> bool
    ensures { result ≡ may_be_of (measure_of scale.now) low number }
{
    is_within(low, LENGTH_LIMIT, number)
        && match scale.which {
            Which::Source => true,
            Which::Target => number % scale.grid == 0,
        }
}

// A length as it is kept.
fn kept(scale: &Scale, number: i64) -> i64
    ensures { result ≡ kept_of scale.now.which scale.now.grid number }
{
    match scale.which {
        Which::Source => number,
        Which::Target => number / scale.grid,
    }
}

/// The length at a key that has to be there, as it is kept: in database units in a source table, in steps in a target
/// table. Missing where there is none, Form where it holds another type, Range where it is less than the least one or
/// more than 1,000,000, or in a target table no multiple of the grid.
pub fn length(alloc: Global, table: &Table, key: &str, scale: &Scale, low: i64) -> Result<i64, Stop>
    ensures { Reads result (length_fault (measure_of scale.now) low key.now (table_view table.now)) (λ n. n ≡ length_of (measure_of scale.now) key.now (table_view table.now)) }
{
    let number = number(alloc, table, key)?;
    tested(alloc, key, TableCause::Range, may_be(scale, low, number))?;
    Ok(kept(scale, number))
}

// A number of a pair, from the least one to the largest layer.
fn number_here(alloc: Global, value: &Value, low: &i16) -> Result<i16, Stop>
    ensures { Reads result (number_here_fault low.now (view value.now)) (λ n. n ≡ as_number (view value.now)) }
{
    let number = entry_number(alloc, value)?;
    tested_here(
        alloc,
        TableCause::Range,
        is_within(*low as i64, LAYER_LIMIT, number),
    )?;
    Ok(number as i16)
}

/// The entry at a place of a list, from 0, where there is one.
pub fn value_at(values: &[Value], n: usize) -> Option<&Value>
    ensures { MatchOption result (get_item n (items_view values.now) ≡ None) (λ v. get_item n (items_view values.now) ≡ Some (view v.now)) }
{
    values.get(n)
}

/// How many entries a list has.
#[tactic(auto, using(crate::proofs::Lookups::count_of_view))]
pub fn count(values: &[Value]) -> usize
    ensures { result ≡ count_of (items_view values.now) }
{
    values.len()
}

// Number n of a pair, where it is there, and 0 otherwise.
#[tactic(auto, unfolding(crate::specs::Numbers::place_fault))]
fn place(alloc: Global, values: &[Value], n: usize, low: &i16) -> Result<i16, Stop>
    ensures { Reads result (place_fault low.now n (items_view values.now)) (λ z. z ≡ place_of n (items_view values.now)) }
{
    match value_at(values, n) {
        Some(value) => at_entry(alloc, n, number_here(alloc, value, low)),
        None => Ok(0),
    }
}

/// A pair of numbers from the least ones to 32,767. Form at a number of another type, Range at one that lies outside, and
/// then Range at the list itself where it holds more or fewer than two.
#[tactic(auto, unfolding(crate::specs::Numbers::pair_fault))]
pub fn pair(alloc: Global, values: &[Value], lows: &(i16, i16)) -> Result<(i16, i16), Stop>
    ensures { Reads result (pair_fault lows.now.0 lows.now.1 (items_view values.now)) (λ p. p ≡ pair_of (items_view values.now)) }
{
    let first = place(alloc, values, 0, &lows.0)?;
    let second = place(alloc, values, 1, &lows.1)?;
    tested_here(alloc, TableCause::Range, count(values) == 2)?;
    Ok((first, second))
}
