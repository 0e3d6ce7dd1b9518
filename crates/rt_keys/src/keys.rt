ghost use Rattle.std.specs.Prelude.{◌≡◌, None, Some, MatchOption, is_some, IfOk, map, true, bytes_eq};
ghost use Rattle.std.specs.List.{list_any};
ghost use Rattle.toml.specs.Data.{Members, get_member, as_str as str_of, as_integer as integer_of, as_bool as bool_of, as_array as array_of, as_table as table_of};
ghost use Rattle.toml.specs.View.{view, table_view, array_view, items_view};
ghost use Rattle.rt_keys.specs.Document.{IsDocument, has as has_in, word as word_at, number as number_at, flag as flag_at, list as list_at, inner as inner_at, as_word, as_number, as_list, as_members};
ghost use Rattle.rt_keys.specs.Faults.{Reads, test, test_here, wanted, allowed, unwanted as unwanted_at, others as others_of};

use crate::stop::{Stop, refused, refused_here, tested};
use rt_base::OutOfMemory;
use rt_tech::TableCause;
use std::alloc::Global;
use toml::value::Array;
use toml::{Table, Value};

/// The TOML document that the bytes are, where they are one.
pub fn document(alloc: Global, bytes: &[u8]) -> Result<Option<Table>, OutOfMemory>
    ensures { IfOk result (λ o. MatchOption o ((members : Members) → IsDocument bytes.now members → ⊥) (λ t. IsDocument bytes.now (table_view t))) }
{
    match toml::table_from_slice(alloc, bytes) {
        Ok(table) => Ok(Some(table)),
        Err(error) => {
            if error.is_memory() {
                Err(OutOfMemory)
            } else {
                Ok(None)
            }
        }
    }
}

/// The value at the key, where there is one.
pub fn member<'a>(table: &'a Table, key: &str) -> Option<&'a Value>
    ensures { MatchOption result (get_member key.now (table_view table.now) ≡ None) (λ v. get_member key.now (table_view table.now) ≡ Some (view v.now)) }
{
    table.get(key)
}

/// Whether the key is there.
pub fn has(table: &Table, key: &str) -> bool
    ensures { result ≡ has_in key.now (table_view table.now) }
{
    member(table, key).is_some()
}

// The value at a key that has to be there.
fn found<'a>(alloc: Global, table: &'a Table, key: &str) -> Result<&'a Value, Stop>
    ensures { Reads result (test key.now TableCause.Missing (has_in key.now (table_view table.now))) (λ v. get_member key.now (table_view table.now) ≡ Some (view v.now)) }
{
    match member(table, key) {
        Some(value) => Ok(value),
        None => Err(refused(alloc, key, TableCause::Missing)),
    }
}

/// The string at a key that has to be there. Missing where there is none, Form where it holds another type.
pub fn word<'a>(alloc: Global, table: &'a Table, key: &str) -> Result<&'a str, Stop>
    ensures { Reads result (wanted str_of key.now (table_view table.now)) (λ s. s.now ≡ word_at key.now (table_view table.now)) }
{
    match found(alloc, table, key)?.as_str() {
        Some(word) => Ok(word),
        None => Err(refused(alloc, key, TableCause::Form)),
    }
}

/// The whole number at a key that has to be there. Missing where there is none, Form where it holds another type.
pub fn number(alloc: Global, table: &Table, key: &str) -> Result<i64, Stop>
    ensures { Reads result (wanted integer_of key.now (table_view table.now)) (λ n. n ≡ number_at key.now (table_view table.now)) }
{
    match found(alloc, table, key)?.as_integer() {
        Some(number) => Ok(number),
        None => Err(refused(alloc, key, TableCause::Form)),
    }
}

/// The truth value at a key that has to be there. Missing where there is none, Form where it holds another type.
pub fn flag(alloc: Global, table: &Table, key: &str) -> Result<bool, Stop>
    ensures { Reads result (wanted bool_of key.now (table_view table.now)) (λ b. b ≡ flag_at key.now (table_view table.now)) }
{
    match found(alloc, table, key)?.as_bool() {
        Some(flag) => Ok(flag),
        None => Err(refused(alloc, key, TableCause::Form)),
    }
}

/// The list at a key that has to be there. Missing where there is none, Form where it holds another type.
pub fn list<'a>(alloc: Global, table: &'a Table, key: &str) -> Result<&'a Array, Stop>
    ensures { Reads result (wanted array_of key.now (table_view table.now)) (λ a. array_view a.now ≡ list_at key.now (table_view table.now)) }
{
    match found(alloc, table, key)?.as_array() {
        Some(list) => Ok(list),
        None => Err(refused(alloc, key, TableCause::Form)),
    }
}

/// The table at a key that has to be there. Missing where there is none, Form where it holds another type.
pub fn inner<'a>(alloc: Global, table: &'a Table, key: &str) -> Result<&'a Table, Stop>
    ensures { Reads result (wanted table_of key.now (table_view table.now)) (λ t. table_view t.now ≡ inner_at key.now (table_view table.now)) }
{
    match found(alloc, table, key)?.as_table() {
        Some(inner) => Ok(inner),
        None => Err(refused(alloc, key, TableCause::Form)),
    }
}

/// Refuses a key that is there, by Unknown.
pub fn unwanted(alloc: Global, table: &Table, key: &str) -> Result<(), Stop>
    ensures { Reads result (unwanted_at key.now (table_view table.now)) (λ _. Unit {0}) }
{
    tested(alloc, key, TableCause::Unknown, !has(table, key))
}

/// An entry of a list as a string. Form where it is another type.
pub fn entry_word(alloc: Global, value: &Value) -> Result<&str, Stop>
    ensures { Reads result (test_here TableCause.Form (is_some (str_of (view value.now)))) (λ s. s.now ≡ as_word (view value.now)) }
{
    match value.as_str() {
        Some(word) => Ok(word),
        None => Err(refused_here(alloc, TableCause::Form)),
    }
}

/// An entry of a list as a whole number. Form where it is another type.
pub fn entry_number(alloc: Global, value: &Value) -> Result<i64, Stop>
    ensures { Reads result (test_here TableCause.Form (is_some (integer_of (view value.now)))) (λ n. n ≡ as_number (view value.now)) }
{
    match value.as_integer() {
        Some(number) => Ok(number),
        None => Err(refused_here(alloc, TableCause::Form)),
    }
}

/// An entry of a list as a list. Form where it is another type.
pub fn entry_list(alloc: Global, value: &Value) -> Result<&Array, Stop>
    ensures { Reads result (test_here TableCause.Form (is_some (array_of (view value.now)))) (λ a. array_view a.now ≡ as_list (view value.now)) }
{
    match value.as_array() {
        Some(list) => Ok(list),
        None => Err(refused_here(alloc, TableCause::Form)),
    }
}

/// An entry of a list as a table. Form where it is another type.
pub fn entry_table(alloc: Global, value: &Value) -> Result<&Table, Stop>
    ensures { Reads result (test_here TableCause.Form (is_some (table_of (view value.now)))) (λ t. table_view t.now ≡ as_members (view value.now)) }
{
    match value.as_table() {
        Some(table) => Ok(table),
        None => Err(refused_here(alloc, TableCause::Form)),
    }
}

/// Refuses the first key of the table that isn't named, by Unknown. The keys of a table stand in the order of their
/// bytes.
pub fn others(alloc: Global, table: &Table, named: &[&str]) -> Result<(), Stop>
    ensures { Reads result (others_of (map (λ s. s.now) named.now) (table_view table.now)) (λ _. Unit {0}) }
{
    for (key, _) in table.iter() {
        tested(alloc, key, TableCause::Unknown, is_among(key, named))?;
    }
    Ok(())
}

// Whether the key is among those named.
fn is_among(key: &str, named: &[&str]) -> bool
    ensures { result ≡ list_any (bytes_eq key.now) (map (λ s. s.now) named.now) }
{
    for name in named {
        if key == *name {
            return true;
        }
    }
    false
}

/// The entries at a key that may be there, and none where it isn't. Form where it holds another type than a list.
pub fn values_if_there<'a>(alloc: Global, table: &'a Table, key: &str) -> Result<&'a [Value], Stop>
    ensures { Reads result (allowed array_of key.now (table_view table.now)) (λ vs. items_view vs.now ≡ list_at key.now (table_view table.now)) }
{
    match member(table, key) {
        None => Ok(&[]),
        Some(value) => match value.as_array() {
            Some(list) => Ok(list.as_slice()),
            None => Err(refused(alloc, key, TableCause::Form)),
        },
    }
}

/// The string at a key that may be there. Form where it holds another type.
pub fn word_if_there<'a>(
    alloc: Global,
    table: &'a Table,
    key: &str,
) -> Result<Option<&'a str>, Stop>
    ensures { Reads result (allowed str_of key.now (table_view table.now)) (λ o. MatchOption o (get_member key.now (table_view table.now) ≡ None) (λ s. (has_in key.now (table_view table.now) ≡ true) × (s.now ≡ word_at key.now (table_view table.now)))) }
{
    match member(table, key) {
        None => Ok(None),
        Some(value) => match value.as_str() {
            Some(word) => Ok(Some(word)),
            None => Err(refused(alloc, key, TableCause::Form)),
        },
    }
}
