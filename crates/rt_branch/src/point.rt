//! The point of a basis at an optimum: what variables are worth, and the first that isn't whole.
ghost use Rattle.std.specs.Prelude.{◌≡◌, ◌+◌, ◌*◌, ◌^◌, ◌<◌, pos, ◌≤ℤ◌, ◌<ℤ◌, length, true, false, IfOk};
ghost use Rattle.rt_solved.specs.Systems.{columns_of, variables_of};
ghost use Rattle.rt_simplex.specs.Choices.{IsOptimum};
ghost use Rattle.rt_branch.specs.Branches.{variable_of, variable_at};
ghost use Rattle.rt_branch.specs.Ends.{IsQuotient, IsRowOf, HasRows, IsValueOf, IsPointOf};

use crate::parts::{Point, Value};
use rt_base::{List, OutOfMemory};
use rt_rows::Var;
use rt_tableau::Tableau;
use std::alloc::Global;

// How many columns the variables have.
fn variables(table: &Tableau) -> u32
    ensures { result ≡ variables_of table.now.system }
{
    table.columns() - table.rows()
}

// Fills in the row in which a variable is basic, if row i is one.
fn fill(table: &Tableau, i: u32, rows: &mut [Option<u32>])
    requires there { i < length table.now.system.rows }
    requires so { HasRows table.now i rows.old }
    ensures { HasRows table.now (i + 1) rows.new }
{
    let column = table.basic(i) as usize;
    if column < rows.len() {
        rows[column] = Some(i);
    }
}

// The rows in which the variables are basic, in the order of their columns.
fn rows_of(alloc: Global, table: &Tableau) -> Result<Vec<Option<u32>>, OutOfMemory>
    ensures { IfOk result (λ rows. HasRows table.now (length table.now.system.rows) rows.items) }
{
    let mut rows = vec![in alloc; None; variables(table) as usize]?;
    for i in 0..table.rows() {
        fill(table, i, rows.as_mut_slice());
    }
    Ok(rows)
}

// The first number, which isn't below 0, over the second.
fn quotient(right: &i64, over: &i64) -> Value
    requires right { pos 0 ≤ℤ right.now }
    requires over { pos 0 <ℤ over.now }
    ensures { IsQuotient right.now over.now result }
{
    let size = *right as u64;
    let by = *over as u64;
    let n = (size / by) as i64;
    if size % by == 0 {
        Value::Whole { n }
    } else {
        Value::Broken { n }
    }
}

// What a column is worth that is basic in that row.
fn value(table: &Tableau, row: &Option<u32>, j: u32) -> Value
    requires optimum { IsOptimum table.now }
    requires there { j < columns_of table.now.system }
    requires row { IsRowOf table.now j row.now }
    ensures { IsValueOf table.now j result }
{
    match row {
        Some(i) => quotient(&table.whole(*i, table.columns()), &table.whole(*i, j)),
        None => Value::Whole { n: 0 },
    }
}

// The point of the basis.
pub(crate) fn point_of(alloc: Global, table: &Tableau) -> Result<Point, OutOfMemory>
    requires { IsOptimum table.now }
    ensures { IfOk result (IsPointOf table.now) }
{
    table.look();
    let rows = rows_of(alloc, table)?;
    let mut at = List::new(alloc);
    for j in 0..variables(table) {
        match value(table, &rows[j as usize], j) {
            Value::Whole { n } => at.push(n)?,
            Value::Broken { n } => return Ok(Point::Broken { j, n }),
        }
    }
    Ok(Point::Whole { at })
}

// The variable of a column.
pub(crate) fn variable(table: &Tableau, j: u32) -> Var
    requires { j < variables_of table.now.system }
    ensures { result ≡ variable_at table.now j }
{
    let strips = variables(table) / 2 - 1;
    match table.goal() {
        Var::L(_) | Var::R(_) | Var::Width | Var::Axis => across(strips, j),
        Var::B(_) | Var::T(_) | Var::Height => upwards(strips, j),
    }
}

// The variable of a column across.
fn across(strips: u32, j: u32) -> Var
    requires { 2 * strips + 2 < 2 ^ 32 }
    ensures { result ≡ variable_of strips false j }
{
    if j < 2 * strips {
        if j % 2 == 0 {
            Var::L(j / 2)
        } else {
            Var::R(j / 2)
        }
    } else if j == 2 * strips {
        Var::Width
    } else {
        Var::Axis
    }
}

// The variable of a column upwards.
fn upwards(strips: u32, j: u32) -> Var
    requires { 2 * strips + 2 < 2 ^ 32 }
    ensures { result ≡ variable_of strips true j }
{
    if j < 2 * strips {
        if j % 2 == 0 {
            Var::B(j / 2)
        } else {
            Var::T(j / 2)
        }
    } else if j == 2 * strips {
        Var::Height
    } else {
        Var::Axis
    }
}
