//! The run of a table, with what its end shows.
ghost use Rattle.std.specs.Prelude.{◌≡◌, ◌<◌, ◌≤◌, IfOk, IfErr};
ghost use Rattle.rt_rows.specs.Known.{IsSmall};
ghost use Rattle.rt_solved.specs.Systems.{columns_of};
ghost use Rattle.rt_simplex.specs.Choices.{IsOptimum, IsRay, IsGoalAt, goal_of};
ghost use Rattle.rt_simplex.specs.Shares.{AreTimesBy};
ghost use Rattle.rt_simplex.specs.Runs.{IsRun, IsEnd, IsStop};
ghost use Rattle.rt_simplex.specs.Feasible.{IsDualFeasible};
ghost use Rattle.rt_simplex.specs.Bounds.{IsBoundOf};

use crate::answers::{Bound, End, SearchError};
use crate::combination::{cost_shares, row_shares};
use crate::run::run_dual;
use crate::values::{look, values};
use rt_base::{OutOfMemory, Pivots};
use rt_tableau::Tableau;
use std::alloc::Global;

// How many times the goal is taken in its costs: the denominator of its row, or 1.
fn goal_times(table: &Tableau, goal: u32, row: &Option<u32>) -> i64
    requires goal { goal ≡ goal_of table.now }
    requires there { goal < columns_of table.now.system }
    requires row { IsGoalAt table.now row.now }
    ensures is { AreTimesBy table.now row.now result }
    ensures small { IsSmall result }
{
    match row {
        Some(i) => table.whole(*i, goal),
        None => 1,
    }
}

// What an optimum shows.
fn optimum(alloc: Global, table: &Tableau) -> Result<Bound, OutOfMemory>
    requires feasible { IsDualFeasible table.now }
    requires ended { IsOptimum table.now }
    ensures { IfOk result (IsBoundOf table.now) }
{
    look(table);
    let goal = table.goal_column();
    let row = table.goal_row();
    let over = goal_times(table, goal, &row);
    let shares = cost_shares(alloc, table, goal, &row)?;
    let at = values(alloc, table)?;
    Ok(Bound::Optimum {
        at,
        shares,
        over: i128::from(over),
    })
}

// What a ray shows.
fn ray(alloc: Global, table: &Tableau, row: u32) -> Result<Bound, OutOfMemory>
    requires feasible { IsDualFeasible table.now }
    requires ended { IsRay table.now row }
    ensures { IfOk result (IsBoundOf table.now) }
{
    let over = table.whole(row, table.basic(row));
    let shares = row_shares(alloc, table, row)?;
    Ok(Bound::Ray {
        shares,
        over: i128::from(over),
    })
}

// What the end of a run shows.
fn bound_of(alloc: Global, table: &Tableau, end: &End) -> Result<Bound, OutOfMemory>
    requires feasible { IsDualFeasible table.now }
    requires ended { IsEnd table.now end.now }
    ensures { IfOk result (IsBoundOf table.now) }
{
    match *end {
        End::Optimum => optimum(alloc, table),
        End::Ray { row } => ray(alloc, table, row),
    }
}

/// Makes dual pivots, as [`run_dual`](crate::run_dual) does, from a table in which no column costs less than 0, and tells what the end of the run
/// shows: at an optimum the point of the basis, at which the goal is least, and a combination of rows with that value as its least one; at a ray a
/// combination that no point meets. Still no column costs less than 0. Overflow and Budget are those of the run, and after a refusal the table is as
/// the last pivot made it. (After the dual simplex method of linear programming, and its duality.)
pub fn bound(
    alloc: Global,
    table: &mut Tableau,
    limit: u64,
    pivots: &mut Pivots,
) -> Result<Bound, SearchError>
    requires feasible { IsDualFeasible table.old }
    requires ledger { pivots.old ≤ limit }
    ensures run { IsRun table.old pivots.old table.new pivots.new }
    ensures within { pivots.new ≤ limit }
    ensures feasible { IsDualFeasible table.new }
    ensures ended { IfOk result (IsBoundOf table.new) }
    ensures stopped { IfErr result (IsStop limit table.new pivots.new) }
{
    let end = run_dual(alloc, table, limit, pivots)?;
    let Ok(bound) = bound_of(alloc, table, &end) else {
        return Err(SearchError::OutOfMemory);
    };
    Ok(bound)
}
