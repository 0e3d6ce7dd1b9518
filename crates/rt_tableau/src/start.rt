//! The lines that rows begin with, where each row's own column is basic.
ghost use Rattle.std.specs.Prelude.{◌≡◌, ◌+◌, ◌*◌, ◌<◌, ◌^◌, max, length, ℕ, slice_get, Some, IfOk};
ghost use Rattle.rt_rows.specs.declared.row.Row.{Row as RowValue};
ghost use Rattle.rt_solved.specs.Systems.{column_of};
ghost use Rattle.rt_tableau.specs.Starts.{strips_of, strips_of_row, strips_of_term, HasColumn, columns_from, IsTableRow, IsSmallFactor, with_term, IsStartLine, AreStarts};

use rt_base::{List, OutOfMemory};
use rt_rows::{Row, Term, Var};
use std::alloc::Global;

// One more than the greatest strip that a row names.
pub(crate) fn strips_named(rows: &[Row]) -> u32
    requires { strips_of rows.now < 2 ^ 31 }
    ensures { result ≡ strips_of rows.now }
{
    let mut strips = 0;
    for row in rows {
        strips = greater(strips, strips_in(row));
    }
    strips
}

// The greater of two counts.
fn greater(a: u32, b: u32) -> u32
    ensures { result ≡ max a b }
{
    a.max(b)
}

// The same of one row.
fn strips_in(row: &Row) -> u32
    requires { strips_of_row row.now < 2 ^ 31 }
    ensures { result ≡ strips_of_row row.now }
{
    strips_by(&row.terms[0])
        .max(strips_by(&row.terms[1]))
        .max(strips_by(&row.terms[2]))
}

// The same of one term.
fn strips_by(term: &Option<Term>) -> u32
    requires { strips_of_term term.now < 2 ^ 31 }
    ensures { result ≡ strips_of_term term.now }
{
    match term {
        Some(term) => match term.var {
            Var::L(i) | Var::R(i) | Var::B(i) | Var::T(i) => i + 1,
            Var::Width | Var::Height | Var::Axis => 0,
        },
        None => 0,
    }
}

// The column of a variable.
pub(crate) fn column(strips: u32, var: &Var) -> usize
    requires few { strips < 2 ^ 31 }
    requires there { HasColumn strips var.now }
    ensures { result ≡ column_of strips var.now }
{
    match *var {
        Var::L(i) | Var::B(i) => 2 * i as usize,
        Var::R(i) | Var::T(i) => 2 * i as usize + 1,
        Var::Width | Var::Height => 2 * strips as usize,
        Var::Axis => 2 * strips as usize + 1,
    }
}

// Columns in order from the first one.
pub(crate) fn columns_in_order(
    alloc: Global,
    first: u32,
    count: u32,
) -> Result<Vec<u32>, OutOfMemory>
    requires { first + count < 2 ^ 32 }
    ensures { IfOk result (λ columns. columns.items ≡ columns_from first count) }
{
    let mut columns = Vec::new(alloc);
    for d in 0..count {
        columns.push(first + d)?;
    }
    Ok(columns)
}

// Puts a term's factor into its column, with the sign turned.
fn put(numbers: &mut [i64], term: &Option<Term>, strips: u32)
    requires few { strips < 2 ^ 31 }
    requires long { 2 * strips + 2 < length numbers.old }
    requires small { IsSmallFactor term.now }
    requires there { strips_of_term term.now < strips + 1 }
    ensures { numbers.new ≡ with_term strips numbers.old term.now }
{
    if let Some(term) = term {
        numbers[column(strips, &term.var) + 1] = -term.times;
    }
}

// The line of a row that begins with its own column basic.
fn line_of(alloc: Global, row: &Row, strips: u32, own: usize) -> Result<List<i64>, OutOfMemory>
    requires few { strips < 2 ^ 31 }
    requires own { own < 2 ^ 32 }
    requires behind { 2 * strips + 1 < own }
    requires fit { IsTableRow strips row.now }
    requires there { strips_of_row row.now < strips + 1 }
    ensures { IfOk result (λ line. IsStartLine strips own row.now line) }
{
    let mut numbers = vec![in alloc; 0i64; own + 2]?;
    numbers[0] = -row.least;
    put(numbers.as_mut_slice(), &row.terms[0], strips);
    put(numbers.as_mut_slice(), &row.terms[1], strips);
    put(numbers.as_mut_slice(), &row.terms[2], strips);
    numbers[own + 1] = 1;
    Ok(List::of(numbers))
}

// The lines that rows begin with, whose own columns come in order from the first one.
pub(crate) fn lines_of(
    alloc: Global,
    rows: &[Row],
    strips: u32,
    first: usize,
) -> Result<Vec<List<i64>>, OutOfMemory>
    requires few { strips < 2 ^ 31 }
    requires own { first + length rows.now < 2 ^ 32 }
    requires behind { 2 * strips + 1 < first }
    requires fit { (d : ℕ) (row : RowValue) → slice_get rows.now d ≡ Some row → IsTableRow strips row }
    requires there { strips_of rows.now < strips + 1 }
    ensures { IfOk result (λ lines. AreStarts strips first rows.now lines.items) }
{
    let mut lines = Vec::new(alloc);
    for d in 0..rows.len() {
        let line = line_of(alloc, &rows[d], strips, first + d)?;
        lines.push(line)?;
    }
    Ok(lines)
}
