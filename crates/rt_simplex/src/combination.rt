//! The combinations of rows that an optimum and a ray give.
ghost use Rattle.std.specs.Prelude.{◌≡◌, length, IfOk, OnOk};
ghost use Rattle.rt_rows.specs.Known.{IsSmall};
ghost use Rattle.rt_simplex.specs.Choices.{IsGoalAt, IsRay, goal_of};
ghost use Rattle.rt_simplex.specs.Feasible.{IsDualFeasible};
ghost use Rattle.rt_simplex.specs.Shares.{AreTakenByCosts, AreTakenByRow, with_share};

use crate::choices::cost;
use rt_base::{List, OutOfMemory};
use rt_rows::{Of, Share};
use rt_tableau::Tableau;
use std::alloc::Global;

// Takes a row so many times, or leaves it out at 0.
fn take(shares: &mut List<Share>, d: u32, times: &i64) -> Result<(), OutOfMemory>
    requires { IsSmall times.now }
    ensures { OnOk result (shares.new ≡ with_share shares.old d times.now) }
{
    if *times == 0 {
        return Ok(());
    }
    shares.push(Share {
        times: i128::from(*times),
        of: Of::Up(d),
    })
}

// The rows, each as often as its own column costs.
pub(crate) fn cost_shares(
    alloc: Global,
    table: &Tableau,
    goal: u32,
    row: &Option<u32>,
) -> Result<List<Share>, OutOfMemory>
    requires feasible { IsDualFeasible table.now }
    requires goal { goal ≡ goal_of table.now }
    requires row { IsGoalAt table.now row.now }
    ensures { IfOk result (AreTakenByCosts table.now row.now (length table.now.system.rows)) }
{
    let first = table.columns() - table.rows();
    let mut shares = List::new(alloc);
    for d in 0..table.rows() {
        take(&mut shares, d, &cost(table, goal, row, first + d))?;
    }
    Ok(shares)
}

// The rows, each as often as row p of a ray has its own column.
pub(crate) fn row_shares(alloc: Global, table: &Tableau, p: u32) -> Result<List<Share>, OutOfMemory>
    requires { IsRay table.now p }
    ensures { IfOk result (AreTakenByRow table.now p (length table.now.system.rows)) }
{
    let first = table.columns() - table.rows();
    let mut shares = List::new(alloc);
    for d in 0..table.rows() {
        take(&mut shares, d, &table.whole(p, first + d))?;
    }
    Ok(shares)
}
