//! Entries of a table and its costs.
ghost use Rattle.std.specs.Prelude.{◌≡◌, ◌+◌, ◌<◌, ◌^◌, suc, pos, ◌<ℤ◌, length, MatchOption};
ghost use Rattle.rt_frac.specs.Fracs.{IsFracOf};
ghost use Rattle.rt_rows.specs.Known.{IsSmall};
ghost use Rattle.rt_solved.specs.Tables.{basic_of};
ghost use Rattle.rt_tableau.specs.Numbers.{number_of, AreSmall};
ghost use Rattle.rt_tableau.specs.States.{number_at};
ghost use Rattle.rt_tableau.specs.Costs.{IsFree, IsBasicIn, cost_of, free_cost};

use crate::line::number;
use rt_frac::Frac;

// The number of a line that stands at a place: that of the column, or behind the columns the right side, which is number 0.
pub(crate) fn index(j: usize, columns: usize) -> usize
    requires { j < 2 ^ 33 }
    ensures { result ≡ number_at columns j }
{
    if j == columns { 0 } else { j + 1 }
}

// The fraction of two numbers, the second of which is above 0.
pub(crate) fn ratio(num: &i64, den: &i64) -> Frac
    requires positive { pos 0 <ℤ den.now }
    requires num { IsSmall num.now }
    requires den { IsSmall den.now }
    ensures { IsFracOf num.now den.now result }
{
    match Frac::new(i128::from(*num), i128::from(*den)) {
        Some(found) => found,
        None => unreachable!(),
    }
}

// The row in which a column is basic, if there is one.
pub(crate) fn row_of(basis: &[u32], column: usize) -> Option<usize>
    ensures { MatchOption result (IsFree basis.now column) (IsBasicIn basis.now column) }
{
    for i in 0..basis.len() {
        if basis[i] as usize == column {
            return Some(i);
        }
    }
    None
}

// What a place costs by the line in which the goal is basic.
pub(crate) fn cost_in(line: &[i64], goal: usize, columns: usize, j: usize) -> i64
    requires line { AreSmall line.now }
    requires few { j < 2 ^ 33 }
    ensures is { result ≡ cost_of line.now goal columns j }
    ensures small { IsSmall result }
{
    if j == goal {
        0
    } else if j == columns {
        number(line, 0)
    } else {
        -number(line, j + 1)
    }
}

// What a place costs where the goal is basic nowhere.
pub(crate) fn cost_free(goal: usize, j: usize) -> i64
    ensures is { result ≡ free_cost goal j }
    ensures small { IsSmall result }
{
    if j == goal { 1 } else { 0 }
}
