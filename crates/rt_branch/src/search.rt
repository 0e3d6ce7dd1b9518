//! The search for whole positions at which the goal is least.
ghost use Rattle.std.specs.Prelude.{◌≡◌, ◌+◌, ◌<◌, ◌≤◌, ◌^◌, OnOk, IfOk, IfErr, Ok};
ghost use Rattle.rt_solved.specs.Systems.{columns_of};
ghost use Rattle.rt_simplex.specs.Feasible.{IsDualFeasible};
ghost use Rattle.rt_branch.specs.Wholes.{IsTheLeast};
ghost use Rattle.rt_branch.specs.Going.{Standing, IsOpen, IsOver, IsEnded, Stops, now};

use crate::moves::step;
use crate::parts::{Best, Path};
use rt_base::Pivots;
use rt_simplex::SearchError;
use rt_tableau::Tableau;
use std::alloc::Global;

// Does what is to be done with open nodes, until there are none.
fn run(
    alloc: Global,
    table: &mut Tableau,
    path: &mut Path,
    limit: u64,
    pivots: &mut Pivots,
) -> Result<(), SearchError>
    ghost standing: { Standing }
    requires stands { IsOpen standing path.old table.old }
    requires limit { limit ≡ standing.limit }
    requires made { pivots.old ≡ standing.made }
    ensures over { OnOk result (IsOver (now standing pivots.new) path.new) }
    ensures stopped { IfErr result (Stops standing.root standing.from standing.limit pivots.new) }
{
    loop {
        let more = step(alloc, table, path, limit, pivots)?;
        if !more {
            return Ok(());
        }
    }
}

/// Searches for the whole positions that meet the table's rows and at which the goal is least, from a table in which no column costs less than 0. None
/// where no whole positions meet the rows. Overflow exactly where the next dual pivot of the search would make a whole entry past a magnitude of
/// 10^18 and the ledger is below the limit. Budget exactly where a pivot is needed and the ledger stands at the limit. Afterwards the table is of no
/// more use. (After the method of branch and bound.)
pub fn least_whole(
    alloc: Global,
    table: &mut Tableau,
    limit: u64,
    pivots: &mut Pivots,
) -> Result<Option<Best>, SearchError>
    requires feasible { IsDualFeasible table.old }
    requires ledger { pivots.old ≤ limit }
    // Columns, with one for each pivot that may be made, are told by 32 bits.
    requires few { columns_of table.old.system + limit + 1 < 2 ^ 32 + pivots.old }
    ensures ended { IfOk result (IsEnded table.old pivots.old limit pivots.new) }
    ensures least { IfOk result (IsTheLeast table.old) }
    ensures stopped { IfErr result (Stops table.old pivots.old limit pivots.new) }
{
    table.look();
    let mut path = Path {
        changes: Vec::new(alloc),
        waiting: Vec::new(alloc),
        best: None,
    };
    run(alloc, table, &mut path, limit, pivots)?;
    Ok(path.best)
}
