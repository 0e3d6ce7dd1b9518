//! Which row and which column a dual pivot takes.
ghost use Rattle.std.specs.Prelude.{◌≡◌, ◌+◌, ◌<◌, ◌≤ℤ◌, ◌<ℤ◌, ◌*ℤ◌, length, MatchOption, MatchBool};
ghost use Rattle.rt_rows.specs.Known.{IsSmall};
ghost use Rattle.rt_solved.specs.Systems.{columns_of};
ghost use Rattle.rt_simplex.specs.Choices.{HasNoRow, IsFirstRow, IsOptimum, IsLeaving, IsRay, IsEntering, goal_of, IsGoalAt};
ghost use Rattle.rt_simplex.specs.Among.{IsCostBy, IsColumnAmong};
ghost use Rattle.rt_simplex.specs.Runs.{IsNext};

use crate::answers::{End, Next};
use rt_tableau::Tableau;

// The row that a pivot takes among the first ones and one more.
fn row_among(table: &Tableau, i: u32, found: Option<u32>) -> Option<u32>
    requires there { i < length table.now.system.rows }
    requires so { MatchOption found (HasNoRow table.now i) (IsFirstRow table.now i) }
    ensures { MatchOption result (HasNoRow table.now (i + 1)) (IsFirstRow table.now (i + 1)) }
{
    let right = table.columns();
    if table.whole(i, right) >= 0 {
        return found;
    }
    match found {
        Some(p) => {
            if table.basic(p) <= table.basic(i) {
                Some(p)
            } else {
                Some(i)
            }
        }
        None => Some(i),
    }
}

// The row that a pivot takes, or None at an optimum.
fn next_row(table: &Tableau) -> Option<u32>
    ensures { MatchOption result (IsOptimum table.now) (IsLeaving table.now) }
{
    let mut found = None;
    for i in 0..table.rows() {
        found = row_among(table, i, found);
    }
    found
}

// What a column costs by the row in which the goal is basic.
pub(crate) fn cost(table: &Tableau, goal: u32, row: &Option<u32>, j: u32) -> i64
    requires goal { goal ≡ goal_of table.now }
    requires row { IsGoalAt table.now row.now }
    requires there { j < columns_of table.now.system }
    ensures is { IsCostBy table.now row.now j result }
    ensures small { IsSmall result }
{
    match row {
        Some(i) => { if j == goal { 0 } else { -table.whole(*i, j) } }
        None => { if j == goal { 1 } else { 0 } }
    }
}

// Whether a cost over its entry's magnitude is less than another one. Both entries are below 0.
fn is_less(cost: &i64, entry: &i64, other_cost: &i64, other: &i64) -> bool
    requires cost { IsSmall cost.now }
    requires entry { IsSmall entry.now }
    requires other_cost { IsSmall other_cost.now }
    requires other { IsSmall other.now }
    ensures { MatchBool result ((other_cost.now *ℤ entry.now) <ℤ (cost.now *ℤ other.now)) ((cost.now *ℤ other.now) ≤ℤ (other_cost.now *ℤ entry.now)) }
{
    i128::from(*other_cost) * i128::from(*entry) < i128::from(*cost) * i128::from(*other)
}

// The column that a pivot takes among the first ones and one more.
fn column_among(
    table: &Tableau,
    p: u32,
    goal: u32,
    row: &Option<u32>,
    j: u32,
    found: Option<u32>,
) -> Option<u32>
    requires leaving { p < length table.now.system.rows }
    requires goal { goal ≡ goal_of table.now }
    requires row { IsGoalAt table.now row.now }
    requires there { j < columns_of table.now.system }
    requires so { IsColumnAmong table.now p row.now j found }
    ensures { IsColumnAmong table.now p row.now (j + 1) result }
{
    let entry = table.whole(p, j);
    if entry >= 0 {
        return found;
    }
    let Some(q) = found else {
        return Some(j);
    };
    let other = table.whole(p, q);
    let other_cost = cost(table, goal, row, q);
    if is_less(&cost(table, goal, row, j), &entry, &other_cost, &other) {
        Some(j)
    } else {
        Some(q)
    }
}

// The column that a pivot takes in the row, or None at a ray.
fn next_column(table: &Tableau, p: u32) -> Option<u32>
    requires { IsLeaving table.now p }
    ensures { MatchOption result (IsRay table.now p) (IsEntering table.now p) }
{
    let goal = table.goal_column();
    let row = table.goal_row();
    let mut found = None;
    for j in 0..table.columns() {
        found = column_among(table, p, goal, &row, j, found);
    }
    found
}

/// What comes next at a table: the dual pivot, an optimum or a ray. (After the dual simplex method of linear programming, with the least index among
/// equals.)
pub fn next(table: &Tableau) -> Next
    ensures { IsNext table.now result }
{
    let Some(p) = next_row(table) else {
        return Next::Ended(End::Optimum);
    };
    match next_column(table, p) {
        Some(q) => Next::Pivot { p, q },
        None => Next::Ended(End::Ray { row: p }),
    }
}
