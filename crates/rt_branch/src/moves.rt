//! What is done with an open node.
ghost use Rattle.std.specs.Prelude.{◌≡◌, ◌+◌, ◌<◌, pos, ◌≤ℤ◌, true, OnOk, IfOk, IfErr, MatchBool};
ghost use Rattle.rt_tableau.specs.Starts.{HasColumn};
ghost use Rattle.rt_simplex.specs.Choices.{IsOptimum, IsDualPivot};
ghost use Rattle.rt_simplex.specs.Runs.{IsEnd};
ghost use Rattle.rt_branch.specs.Values.{AreWhole, IsFirstBroken};
ghost use Rattle.rt_branch.specs.Searches.{MayHaveBetter};
ghost use Rattle.rt_branch.specs.Ends.{IsBestOf};
ghost use Rattle.rt_branch.specs.Going.{Standing, IsOpen, IsOver, Stops, now, with_pivot, work_left};

use crate::back::{add, next_node};
use crate::found::{has_no_better, keep};
use crate::parts::{Best, Change, Path, Point, Waiting};
use crate::point::{point_of, variable};
use rt_base::{List, OutOfMemory, Pivots};
use rt_rows::Row;
use rt_simplex::{End, Next, SearchError, advance, next};
use rt_tableau::Tableau;
use std::alloc::Global;

// Makes the dual pivot, or stops.
fn pivot(
    alloc: Global,
    table: &mut Tableau,
    path: &mut Path,
    p: u32,
    q: u32,
    limit: u64,
    pivots: &mut Pivots,
) -> Result<(), SearchError>
    ghost standing: { Standing }
    requires stands { IsOpen standing path.old table.old }
    requires dual { IsDualPivot table.old p q }
    requires limit { limit ≡ standing.limit }
    requires made { pivots.old ≡ standing.made }
    ensures stands { OnOk result (IsOpen (with_pivot standing) path.new table.new) }
    ensures counted { OnOk result (pivots.new ≡ pivots.old + 1) }
    ensures less { OnOk result (work_left limit pivots.new path.new < work_left limit pivots.old path.old) }
    ensures stopped { IfErr result (Stops standing.root standing.from standing.limit pivots.new) }
{
    let count = pivots.count();
    if count == limit {
        return Err(SearchError::Budget { pivots: limit });
    }
    let column = table.basic(p);
    advance(alloc, table, p, q, pivots)?;
    let Ok(()) = path.changes.push(Change::Exchanged { p, column }) else {
        return Err(SearchError::OutOfMemory);
    };
    Ok(())
}

// The whole positions of an optimum.
fn best_of(table: &Tableau, at: List<i64>) -> Best
    requires goal { HasColumn table.now.system.strips table.now.goal }
    requires whole { AreWhole table.now at }
    ensures { IsBestOf table.now at result }
{
    let extent = at.as_slice()[table.goal_column() as usize];
    Best { extent, at }
}

// Replaces the node by two, in which the column is at most the whole number or at least the next one.
fn branch(
    alloc: Global,
    table: &mut Tableau,
    path: &mut Path,
    j: u32,
    n: &i64,
) -> Result<(), OutOfMemory>
    ghost standing: { Standing }
    requires stands { IsOpen standing path.old table.old }
    requires optimum { IsOptimum table.old }
    requires first { IsFirstBroken table.old j n.now }
    requires low { pos 0 ≤ℤ n.now }
    requires may { MayHaveBetter path.old.best table.old }
    ensures stands { OnOk result (IsOpen standing path.new table.new) }
    ensures less { OnOk result (work_left standing.limit standing.made path.new < work_left standing.limit standing.made path.old) }
{
    let variable = variable(table, j);
    path.waiting.push(Waiting {
        length: path.changes.len(),
        row: Row::at_least(variable, *n + 1),
    })?;
    add(alloc, table, &mut path.changes, &Row::at_most(variable, *n))?;
    Ok(())
}

// Closes an optimum, or replaces it by two nodes. False where no node is open any more.
fn optimum(alloc: Global, table: &mut Tableau, path: &mut Path) -> Result<bool, OutOfMemory>
    ghost standing: { Standing }
    requires stands { IsOpen standing path.old table.old }
    requires optimum { IsOptimum table.old }
    ensures stands { IfOk result (λ more. MatchBool more (IsOpen standing path.new table.new) (IsOver standing path.new)) }
    ensures less { IfOk result (λ more. more ≡ true → work_left standing.limit standing.made path.new < work_left standing.limit standing.made path.old) }
{
    match point_of(alloc, table)? {
        Point::Whole { at } => {
            keep(&mut path.best, best_of(table, at));
            next_node(alloc, table, path)
        }
        Point::Broken { j, n } => {
            if has_no_better(table, &path.best) {
                return next_node(alloc, table, path);
            }
            branch(alloc, table, path, j, &n)?;
            Ok(true)
        }
    }
}

// Closes a ray or an optimum, or replaces it by two nodes. False where no node is open any more.
fn end_node(
    alloc: Global,
    table: &mut Tableau,
    path: &mut Path,
    end: &End,
) -> Result<bool, OutOfMemory>
    ghost standing: { Standing }
    requires stands { IsOpen standing path.old table.old }
    requires ended { IsEnd table.old end.now }
    ensures stands { IfOk result (λ more. MatchBool more (IsOpen standing path.new table.new) (IsOver standing path.new)) }
    ensures less { IfOk result (λ more. more ≡ true → work_left standing.limit standing.made path.new < work_left standing.limit standing.made path.old) }
{
    match *end {
        End::Optimum => optimum(alloc, table, path),
        End::Ray { .. } => next_node(alloc, table, path),
    }
}

// Does what is to be done with the open node. False where no node is open any more.
pub(crate) fn step(
    alloc: Global,
    table: &mut Tableau,
    path: &mut Path,
    limit: u64,
    pivots: &mut Pivots,
) -> Result<bool, SearchError>
    ghost standing: { Standing }
    requires stands { IsOpen standing path.old table.old }
    requires limit { limit ≡ standing.limit }
    requires made { pivots.old ≡ standing.made }
    ensures stands { IfOk result (λ more. MatchBool more (IsOpen (now standing pivots.new) path.new table.new) (IsOver (now standing pivots.new) path.new)) }
    ensures less { IfOk result (λ more. more ≡ true → work_left limit pivots.new path.new < work_left limit pivots.old path.old) }
    ensures stopped { IfErr result (Stops standing.root standing.from standing.limit pivots.new) }
{
    match next(table) {
        Next::Pivot { p, q } => {
            pivot(alloc, table, path, p, q, limit, pivots)?;
            Ok(true)
        }
        Next::Ended(end) => {
            let Ok(more) = end_node(alloc, table, path, &end) else {
                return Err(SearchError::OutOfMemory);
            };
            Ok(more)
        }
    }
}
