//! Going back: the changes of one table are undone, down to the node of the next branch.
ghost use Rattle.std.specs.Prelude.{◌≡◌, ◌+◌, ◌<◌, ◌^◌, true, length, reverse, OnOk, MatchBool, IfOk};
ghost use Rattle.rt_solved.specs.Systems.{columns_of};
ghost use Rattle.rt_tableau.specs.States.{IsSmallTable};
ghost use Rattle.rt_tableau.specs.Added.{IsAddable, IsBranch, added_state};
ghost use Rattle.rt_tableau.specs.Dropped.{AreNamed};
ghost use Rattle.rt_branch.specs.Trails.{CanUndo, undone_state};
ghost use Rattle.rt_branch.specs.Going.{Standing, HasAdded, CanGoBack, IsGoneBack, IsLeft, IsOpen, IsOver, work_left};

use crate::parts::{Change, Path};
use rt_base::OutOfMemory;
use rt_rows::Row;
use rt_tableau::Tableau;
use std::alloc::Global;

// Undoes a change.
fn undo(alloc: Global, table: &mut Tableau, change: &Change) -> Result<(), OutOfMemory>
    requires can { CanUndo table.old change.now }
    requires small { IsSmallTable (undone_state table.old change.now) }
    requires named { AreNamed table.old.system }
    ensures { OnOk result (table.new ≡ undone_state table.old change.now) }
{
    match *change {
        Change::Exchanged { p, column } => table.exchange(alloc, p, column),
        Change::Added => {
            table.drop_row();
            Ok(())
        }
    }
}

// Undoes the latest changes, until so many are left.
fn go_back(
    alloc: Global,
    table: &mut Tableau,
    changes: &mut Vec<Change>,
    length: usize,
) -> Result<(), OutOfMemory>
    requires named { AreNamed table.old.system }
    requires back { CanGoBack length (reverse changes.old.items) table.old }
    ensures { OnOk result (IsGoneBack length (reverse changes.old.items) table.old (reverse changes.new.items) table.new) }
{
    while changes.len() > length {
        let Some(change) = changes.pop() else {
            unreachable!();
        };
        undo(alloc, table, &change)?;
    }
    Ok(())
}

// Adds the row of a branch.
pub(crate) fn add(
    alloc: Global,
    table: &mut Tableau,
    changes: &mut Vec<Change>,
    row: &Row,
) -> Result<(), OutOfMemory>
    requires fit { IsAddable table.old.system.strips row.now }
    requires branch { IsBranch table.old row.now }
    requires few { columns_of table.old.system + 1 < 2 ^ 32 }
    ensures table { OnOk result (table.new ≡ added_state table.old row.now) }
    ensures small { OnOk result (IsSmallTable table.new) }
    ensures changes { OnOk result (HasAdded changes.old.items changes.new.items) }
{
    if !table.add_row(alloc, row)? {
        unreachable!();
    }
    changes.push(Change::Added)?;
    Ok(())
}

// Goes on with the next node that waits. False where none does.
pub(crate) fn next_node(
    alloc: Global,
    table: &mut Tableau,
    path: &mut Path,
) -> Result<bool, OutOfMemory>
    ghost standing: { Standing }
    requires { IsLeft standing path.old table.old }
    ensures stands { IfOk result (λ more. MatchBool more (IsOpen standing path.new table.new) (IsOver standing path.new)) }
    ensures less { IfOk result (λ more. more ≡ true → work_left standing.limit standing.made path.new < work_left standing.limit standing.made path.old) }
{
    let Some(waiting) = path.waiting.pop() else {
        return Ok(false);
    };
    go_back(alloc, table, &mut path.changes, waiting.length)?;
    add(alloc, table, &mut path.changes, &waiting.row)?;
    Ok(true)
}
