//! The lines after an exchange of a column for a basic one.
ghost use Rattle.std.specs.Prelude.{◌≡◌, ◌<◌, ◌^◌, suc, neg_ℤ, length, IfOk, MatchResult};
ghost use Rattle.rt_tableau.specs.Numbers.{number_of, AreSmall};
ghost use Rattle.rt_tableau.specs.States.{number_at};
ghost use Rattle.rt_tableau.specs.Tables.{table_of, IsReady, IsNewKept, IsNewPast, AreNew, IsStop};
ghost use Rattle.rt_tableau.specs.Turned.{IsTurned};

use crate::line::{number, updated};
use rt_base::{List, OutOfMemory};
use std::alloc::Global;

// The line with the signs turned.
fn turned(alloc: Global, line: &[i64]) -> Result<List<i64>, OutOfMemory>
    requires { AreSmall line.now }
    ensures { IfOk result (λ new. IsTurned line.now new) }
{
    let mut new = List::new(alloc);
    for number in line {
        new.push(-*number)?;
    }
    Ok(new)
}

// The line once more.
fn copied(alloc: Global, line: &[i64]) -> Result<List<i64>, OutOfMemory>
    ensures { IfOk result (λ new. new ≡ line.now) }
{
    let numbers = Vec::from_slice(alloc, line)?;
    Ok(List::of(numbers))
}

// The lines once more.
pub(crate) fn copied_lines(
    alloc: Global,
    lines: &[List<i64>],
) -> Result<Vec<List<i64>>, OutOfMemory>
    ensures { IfOk result (λ new. new.items ≡ lines.now) }
{
    let mut new = Vec::new(alloc);
    for i in 0..lines.len() {
        let line = copied(alloc, lines[i].as_slice())?;
        new.push(line)?;
    }
    Ok(new)
}

// The place of a line's number: that of its column, and behind the columns that of the right side, which is number 0.
fn place(s: usize, columns: usize) -> usize
    requires { s < suc columns }
    ensures is { s ≡ number_at columns result }
    ensures there { result < suc columns }
{
    if s == 0 { columns } else { s - 1 }
}

// Line i after the exchange, or the first place at which it would be past the limit.
fn updated_at(
    alloc: Global,
    lines: &[List<i64>],
    basis: &[u32],
    columns: usize,
    p: usize,
    q: usize,
    i: usize,
) -> Result<Result<List<i64>, usize>, OutOfMemory>
    requires ready { IsReady lines.now basis.now columns p q }
    requires there { i < length lines.now }
    ensures { IfOk result (λ new. MatchResult new (IsNewKept (table_of lines.now) columns p q i) (IsNewPast (table_of lines.now) columns p q i)) }
{
    let line = lines[i].as_slice();
    let pivot = lines[p].as_slice();
    if i == p {
        let new = turned(alloc, line)?;
        return Ok(Ok(new));
    }
    if number(line, q + 1) == 0 {
        let new = copied(alloc, line)?;
        return Ok(Ok(new));
    }
    match updated(alloc, line, pivot, q, basis[i] as usize)? {
        Ok(new) => Ok(Ok(new)),
        Err(s) => Ok(Err(place(s, columns))),
    }
}

// All lines after the exchange, or the first row and place that would be past the limit.
pub(crate) fn exchanged(
    alloc: Global,
    lines: &[List<i64>],
    basis: &[u32],
    columns: usize,
    p: usize,
    q: usize,
) -> Result<Result<Vec<List<i64>>, (usize, usize)>, OutOfMemory>
    requires { IsReady lines.now basis.now columns p q }
    ensures { IfOk result (λ new. MatchResult new (λ new. AreNew (table_of lines.now) (length lines.now) columns p q new.items)
        (IsStop (table_of lines.now) (length lines.now) columns p q)) }
{
    let mut new = Vec::new(alloc);
    for i in 0..lines.len() {
        match updated_at(alloc, lines, basis, columns, p, q, i)? {
            Ok(line) => new.push(line)?,
            Err(j) => return Ok(Err((i, j))),
        }
    }
    Ok(Ok(new))
}
