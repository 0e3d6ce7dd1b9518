//! The line of an added row, by what its variable is worth.
ghost use Rattle.std.specs.Prelude.{◌≡◌, ◌+◌, ◌<◌, ◌≤◌, ◌^◌, ◌⊎◌, ◌++◌, ◌∷◌, [], suc, pos, negsuc, neg_ℤ, ◌+ℤ◌, ◌*ℤ◌, length, slice_set, replicate, IfOk, MatchOption};
ghost use Rattle.rt_rows.specs.Known.{IsSmall};
ghost use Rattle.rt_tableau.specs.Numbers.{number_of, AreSmall, IsPast};
ghost use Rattle.rt_tableau.specs.Added.{added_right, IsAddedLine};

use crate::line::{crossed, number, quotient};
use rt_base::{List, OutOfMemory};
use rt_rows::Row;
use std::alloc::Global;

// The line in which a column is basic, without that column.
pub(crate) fn without(alloc: Global, line: &[i64], column: usize) -> Result<Vec<i64>, OutOfMemory>
    requires { column + 1 < length line.now }
    ensures { IfOk result (λ rest. rest.items ≡ slice_set line.now (column + 1) (pos 0)) }
{
    let mut rest = Vec::from_slice(alloc, line)?;
    rest[column + 1] = 0;
    Ok(rest)
}

// A column that isn't basic is worth itself.
pub(crate) fn alone(alloc: Global, column: usize) -> Result<Vec<i64>, OutOfMemory>
    requires { column < 2 ^ 32 }
    ensures { IfOk result (λ rest. rest.items ≡ slice_set (replicate (column + 2) (pos 0)) (column + 1) (negsuc 0)) }
{
    let mut rest = vec![in alloc; 0i64; column + 2]?;
    rest[column + 1] = -1;
    Ok(rest)
}

// The number, or with its sign turned.
fn signed(times: &i64, number: &i64) -> i64
    requires unit { (times.now ≡ pos 1) ⊎ (times.now ≡ negsuc 0) }
    requires small { IsSmall number.now }
    ensures is { result ≡ times.now *ℤ number.now }
    ensures small { IsSmall result }
{
    if *times < 0 { -*number } else { *number }
}

// A number of the added row's line.
fn added_number(rest: &[i64], over: &i64, times: &i64, right: &i64, own: usize, s: usize) -> i64
    requires rest { AreSmall rest.now }
    requires over { IsSmall over.now }
    requires right { IsSmall right.now }
    requires unit { (times.now ≡ pos 1) ⊎ (times.now ≡ negsuc 0) }
    requires few { own < 2 ^ 32 }
    ensures small { IsSmall result }
    ensures right { s ≡ 0 → result ≡ right.now }
    ensures own { s ≡ own + 1 → result ≡ over.now }
    ensures other { 0 < s → (s ≡ own + 1 → ⊥) → result ≡ times.now *ℤ number_of rest.now s }
{
    if s == 0 {
        *right
    } else if s == own + 1 {
        *over
    } else {
        signed(times, &number(rest, s))
    }
}

// The line of the added row, or None where its right side is past the limit.
pub(crate) fn added_line(
    alloc: Global,
    rest: &[i64],
    over: &i64,
    times: &i64,
    least: &i64,
    own: usize,
) -> Result<Option<List<i64>>, OutOfMemory>
    requires rest { AreSmall rest.now }
    requires over { IsSmall over.now }
    requires least { IsSmall least.now }
    requires unit { (times.now ≡ pos 1) ⊎ (times.now ≡ negsuc 0) }
    requires few { own < 2 ^ 32 }
    ensures { IfOk result (λ found. MatchOption found (IsPast (added_right least.now times.now over.now rest.now))
        (λ line. IsAddedLine own least.now times.now over.now rest.now line)) }
{
    let Some(right) = quotient(&crossed(least, times, over, &number(rest, 0)), 1) else {
        return Ok(None);
    };
    let mut numbers = List::new(alloc);
    for s in 0..own + 2 {
        numbers.push(added_number(rest, over, times, &right, own, s))?;
    }
    Ok(Some(numbers))
}

// The columns, and one more.
pub(crate) fn with_column(
    alloc: Global,
    columns: &[u32],
    column: u32,
) -> Result<Vec<u32>, OutOfMemory>
    ensures { IfOk result (λ new. new.items ≡ columns.now ++ column ∷ []) }
{
    let mut new = Vec::from_slice(alloc, columns)?;
    new.push(column)?;
    Ok(new)
}

// The rows, and one more.
pub(crate) fn with_row(alloc: Global, rows: &[Row], row: &Row) -> Result<Vec<Row>, OutOfMemory>
    ensures { IfOk result (λ new. new.items ≡ rows.now ++ row.now ∷ []) }
{
    let mut new = Vec::from_slice(alloc, rows)?;
    new.push(*row)?;
    Ok(new)
}
