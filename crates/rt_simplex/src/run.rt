//! The run of dual pivots.
ghost use Rattle.std.specs.Prelude.{◌≡◌, ℕ, ◌+◌, ◌-◌, ◌<◌, ◌≤◌, ◌^◌, OnOk, OnErr, IfOk, IfErr};
ghost use Rattle.rt_tableau.specs.States.{IsSmallTable, exchanged_state};
ghost use Rattle.rt_simplex.specs.Choices.{IsDualPivot};
ghost use Rattle.rt_simplex.specs.Runs.{IsRun, IsEnd, IsStop};

use crate::answers::{End, Next, SearchError};
use crate::choices::next;
use rt_base::Pivots;
use rt_tableau::{PivotError, Tableau};
use std::alloc::Global;

/// Makes the dual pivot, and counts it. Overflow as the tableau's pivot tells it; after a refusal the table and the ledger are as before. (After the dual
/// simplex method of linear programming.)
pub fn advance(
    alloc: Global,
    table: &mut Tableau,
    p: u32,
    q: u32,
    pivots: &mut Pivots,
) -> Result<(), SearchError>
    requires dual { IsDualPivot table.old p q }
    requires room { pivots.old < 2 ^ 64 - 1 }
    ensures exchanged { OnOk result (table.new ≡ exchanged_state table.old p q) }
    ensures small { OnOk result (IsSmallTable table.new) }
    ensures counted { OnOk result (pivots.new ≡ pivots.old + 1) }
    ensures table { OnErr result (table.new ≡ table.old) }
    ensures ledger { OnErr result (pivots.new ≡ pivots.old) }
    ensures stopped { (limit : ℕ) → pivots.old < limit → IfErr result (IsStop limit table.new pivots.new) }
{
    match table.pivot(alloc, p, q, pivots) {
        Ok(()) => Ok(()),
        Err(PivotError::Overflow { basis, p, q, i, j }) => {
            Err(SearchError::Overflow { basis, p, q, i, j })
        }
        Err(PivotError::OutOfMemory) => Err(SearchError::OutOfMemory),
    }
}

/// Makes dual pivots, until the table is an optimum or a ray, and counts them. In a dual pivot the row is the one whose basic column is the least
/// among the rows with a right side below 0. The column is the least of those in which a cost over the magnitude of an entry below 0 is least.
/// Overflow exactly where the next of these pivots would make a whole entry past a magnitude of 10^18 and the ledger is below the limit, with the
/// first such place by rows. Budget exactly where a pivot is needed and the ledger stands at the limit. After a refusal the table is as the last pivot made it. (After the dual
/// simplex method of linear programming, with the least index among equals.)
pub fn run_dual(
    alloc: Global,
    table: &mut Tableau,
    limit: u64,
    pivots: &mut Pivots,
) -> Result<End, SearchError>
    requires { pivots.old ≤ limit }
    ensures run { IsRun table.old pivots.old table.new pivots.new }
    ensures within { pivots.new ≤ limit }
    ensures ended { IfOk result (IsEnd table.new) }
    ensures stopped { IfErr result (IsStop limit table.new pivots.new) }
{
    while pivots.count() < limit {
        match next(table) {
            Next::Ended(end) => return Ok(end),
            Next::Pivot { p, q } => advance(alloc, table, p, q, pivots)?,
        }
    }
    match next(table) {
        Next::Ended(end) => Ok(end),
        Next::Pivot { .. } => Err(SearchError::Budget { pivots: limit }),
    }
}
