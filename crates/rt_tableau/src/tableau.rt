//! The tableau.
ghost use Rattle.std.specs.Prelude.{◌≡◌, ◌+◌, ◌-◌, ◌<◌, ◌≤◌, ◌^◌, ℕ, ℤ, length, slice_get, Some, OnOk, OnErr, IfOk, IfErr, MatchBool, MatchOption, true};
ghost use Rattle.rt_rows.specs.declared.row.Row.{Row as RowValue};
ghost use Rattle.rt_rows.specs.Known.{IsSmall};
ghost use Rattle.rt_solved.specs.Systems.{columns_of, column_of};
ghost use Rattle.rt_solved.specs.Tables.{basic_of};
ghost use Rattle.rt_tableau.specs.States.{State, IsGoalRow, IsGoalFree, IsNegative, IsWholeEntry, IsRowEntry, IsCost, IsEntry, IsSmallTable, exchanged_state};
ghost use Rattle.rt_tableau.specs.Tables.{IsKept};
ghost use Rattle.rt_tableau.specs.Refusals.{IsRefused};
ghost use Rattle.rt_tableau.specs.Added.{IsAddable, added_state, IsPastAdded, IsBranch, IsNewRow};
ghost use Rattle.rt_tableau.specs.Dropped.{dropped_state, EndsInOwn, AreNamed};
ghost use Rattle.rt_tableau.specs.Starts.{strips_of, system_of, start_of, HasColumn, IsTableRow};

use crate::added::{added_line, alone, with_column, with_row, without};
use crate::entries::{cost_free, cost_in, index, ratio, row_of};
use crate::exchange::{copied_lines, exchanged};
use crate::line::number;
use crate::pivot_error::PivotError;
use crate::start::{column, columns_in_order, lines_of, strips_named};
use rt_base::{List, OutOfMemory, Pivots};
use rt_frac::Frac;
use rt_rows::{Row, Var};
use std::alloc::Global;
use std::marker::Model;

/// Rows solved for a basis, each as whole numbers over its own denominator, the least one that makes it whole. Contracts see the rows, the goal
/// and the basis: they determine the entries. All whole entries have a magnitude of at most 10^18. Columns are numbered l0, r0, l1, r1, and so
/// on up to the greatest strip that a row names, then the extent, then the mirror axis, then the rows' own; upwards b and t stand in the places of l
/// and r. (After the dual simplex method of linear programming, in whole numbers.)
#[derive(Drop)]
pub struct Tableau {
    strips: u32,
    rows: Vec<Row>,
    goal: Var,
    basis: Vec<u32>,
    lines: Vec<List<i64>>,
}

impl Model for Tableau {
    ghost Value = { State };

    ghost view = { λ t. record { system = record { strips = t.strips; rows = t.rows.items }; goal = t.goal; basis = t.basis.items } };

    ghost invariant = { λ t. IsKept (record { system = record { strips = t.strips; rows = t.rows.items }; goal = t.goal; basis = t.basis.items }) t.lines.items };
}

impl Tableau {
    /// The tableau of the rows in which each row's own column is basic. No number of a row has a magnitude past 10^18, none names a column
    /// twice, the goal is a variable of a strip that a row names, or of none, and all columns are fewer than 2^32. The only error is a want of memory.
    pub fn new(alloc: Global, rows: &[Row], goal: Var) -> Result<Tableau, OutOfMemory>
        requires fit { (d : ℕ) (row : RowValue) → slice_get rows.now d ≡ Some row → IsTableRow (strips_of rows.now) row }
        requires goal { HasColumn (strips_of rows.now) goal }
        requires few { columns_of (system_of rows.now) < 2 ^ 32 }
        ensures { IfOk result (λ tableau. tableau ≡ start_of rows.now goal) }
    {
        let strips = strips_named(rows);
        let first = 2 * strips + 2;
        let lines = lines_of(alloc, rows, strips, first as usize)?;
        let basis = columns_in_order(alloc, first, rows.len() as u32)?;
        let rows = Vec::from_slice(alloc, rows)?;
        Ok(Tableau {
            strips,
            rows,
            goal,
            basis,
            lines,
        })
    }

    /// How many rows it has, without the costs.
    pub fn rows(&self) -> u32
        ensures { result ≡ length self.now.system.rows }
    {
        self.rows.len() as u32
    }

    /// How many columns it has, the rows' own included, without the right side.
    pub fn columns(&self) -> u32
        ensures { result ≡ columns_of self.now.system }
    {
        2 * self.strips + 2 + self.rows.len() as u32
    }

    /// The basic column of a row.
    pub fn basic(&self, i: u32) -> u32
        requires { i < length self.now.system.rows }
        ensures { result ≡ basic_of self.now.basis i }
    {
        self.basis[i as usize]
    }

    /// The whole entry of a row at place `j`: a column, or the number of columns for the right side. The one at the row's basic column is the
    /// row's denominator.
    pub fn whole(&self, i: u32, j: u32) -> i64
        requires row { i < length self.now.system.rows }
        requires place { j ≤ columns_of self.now.system }
        ensures entry { IsWholeEntry self.now i j result }
        ensures small { IsSmall result }
    {
        let columns = self.columns() as usize;
        number(
            self.lines[i as usize].as_slice(),
            index(j as usize, columns),
        )
    }

    /// The rational entry of a row at place `j`: a column, or the number of columns for the right side. Behind the rows stand the costs: the
    /// goal is what stands on their right side and the sum of costs times columns.
    pub fn entry(&self, i: u32, j: u32) -> Frac
        requires row { i ≤ length self.now.system.rows }
        requires place { j ≤ columns_of self.now.system }
        ensures { IsEntry self.now i j result }
    {
        if i < self.rows() {
            self.row_entry(i as usize, j as usize)
        } else {
            self.cost(j as usize)
        }
    }

    /// The variable whose costs are told.
    pub fn goal(&self) -> Var
        ensures { result ≡ self.now.goal }
    {
        self.goal
    }

    /// The column of the goal.
    pub fn goal_column(&self) -> u32
        ensures is { result ≡ column_of self.now.system.strips self.now.goal }
        ensures there { result < columns_of self.now.system }
    {
        column(self.strips, &self.goal) as u32
    }

    /// The row in which the goal is basic, if there is one.
    pub fn goal_row(&self) -> Option<u32>
        ensures { MatchOption result (IsGoalFree self.now) (IsGoalRow self.now) }
    {
        let goal = column(self.strips, &self.goal);
        match row_of(self.basis.as_slice(), goal) {
            Some(i) => Some(i as u32),
            None => None,
        }
    }

    // The rational entry of a row.
    fn row_entry(&self, i: usize, j: usize) -> Frac
        requires row { i < length self.now.system.rows }
        requires place { j ≤ columns_of self.now.system }
        ensures { IsRowEntry self.now i j result }
    {
        let columns = self.columns() as usize;
        let line = self.lines[i].as_slice();
        ratio(
            &number(line, index(j, columns)),
            &number(line, self.basis[i] as usize + 1),
        )
    }

    // What a place costs.
    fn cost(&self, j: usize) -> Frac
        requires place { j ≤ columns_of self.now.system }
        ensures { IsCost self.now j result }
    {
        let columns = self.columns() as usize;
        let goal = column(self.strips, &self.goal);
        match row_of(self.basis.as_slice(), goal) {
            Some(i) => {
                let line = self.lines[i].as_slice();
                ratio(&cost_in(line, goal, columns, j), &number(line, goal + 1))
            }
            None => ratio(&cost_free(goal, j), &1),
        }
    }

    /// That each row has a basic column, and that no whole entry has a magnitude past 10^18. It does nothing.
    pub fn look(&self)
        ensures one_each { length self.now.basis ≡ length self.now.system.rows }
        ensures small { IsSmallTable self.now }
    {
        let _rows = self.rows.len();
    }

    /// The same tableau once more. The only error is a want of memory.
    pub fn copy(&self, alloc: Global) -> Result<Tableau, OutOfMemory>
        ensures { IfOk result (λ copy. copy ≡ self.now) }
    {
        let lines = copied_lines(alloc, self.lines.as_slice())?;
        let basis = Vec::from_slice(alloc, self.basis.as_slice())?;
        let rows = Vec::from_slice(alloc, self.rows.as_slice())?;
        Ok(Tableau {
            strips: self.strips,
            rows,
            goal: self.goal,
            basis,
            lines,
        })
    }

    /// Adds a row that says that a variable is at least or at most a number (its one term stands first, with a factor of 1 or -1), and makes the
    /// row's own column basic in it. False exactly where the right side of the added row passes a magnitude of 10^18 as a whole entry, which no
    /// other entry of it can; then the tableau is as before, as it is after an error. The only error is a want of memory.
    pub fn add_row(&mut self, alloc: Global, row: &Row) -> Result<bool, OutOfMemory>
        requires fit { IsAddable self.old.system.strips row.now }
        requires few { columns_of self.old.system + 1 < 2 ^ 32 }
        ensures added { IfOk result (λ added. MatchBool added (self.new ≡ added_state self.old row.now)
            ((self.new ≡ self.old) × IsPastAdded self.old row.now)) }
        // The row of a branch at a basic variable is always added.
        ensures branch { IfOk result (λ added. IsBranch self.old row.now → added ≡ true) }
        ensures small { OnOk result (IsSmallTable self.new) }
        ensures refused { OnErr result (self.new ≡ self.old) }
    {
        let Some(line) = self.line_of(alloc, row)? else {
            return Ok(false);
        };
        let basis = with_column(alloc, self.basis.as_slice(), self.columns())?;
        let rows = with_row(alloc, self.rows.as_slice(), row)?;
        self.lines.push(line)?;
        self.basis = basis;
        self.rows = rows;
        Ok(true)
    }

    // The line of an added row, or None where its right side is past the limit.
    fn line_of(&self, alloc: Global, row: &Row) -> Result<Option<List<i64>>, OutOfMemory>
        requires fit { IsAddable self.now.system.strips row.now }
        ensures { IfOk result (λ found. MatchOption found (IsPastAdded self.now row.now) (λ line. IsNewRow self.now row.now line)) }
    {
        let Some(term) = row.terms[0] else {
            unreachable!();
        };
        let column = column(self.strips, &term.var);
        let own = self.columns() as usize;
        match row_of(self.basis.as_slice(), column) {
            Some(i) => {
                let line = self.lines[i].as_slice();
                let rest = without(alloc, line, column)?;
                let over = number(line, column + 1);
                let found = added_line(
                    alloc,
                    rest.as_slice(),
                    &over,
                    &term.times,
                    &row.least,
                    own,
                )?;
                Ok(found)
            }
            None => {
                let rest = alone(alloc, column)?;
                let found = added_line(alloc, rest.as_slice(), &1, &term.times, &row.least, own)?;
                Ok(found)
            }
        }
    }

    /// Takes the last row away, in which its own column is basic: what is left is the tableau of the rows before it.
    pub fn drop_row(&mut self)
        requires last { EndsInOwn self.old }
        requires named { AreNamed self.old.system }
        ensures { self.new ≡ dropped_state self.old }
    {
        self.lines.pop();
        self.basis.pop();
        self.rows.pop();
    }

    /// Makes column `q` basic in row `p`, whose entry there is below 0, where no whole entry of the new table passes a magnitude of 10^18. It
    /// counts nothing: so a pivot is taken back. The only error is a want of memory, and then the tableau is as before.
    pub fn exchange(&mut self, alloc: Global, p: u32, q: u32) -> Result<(), OutOfMemory>
        requires place { IsNegative self.old p q }
        requires small { IsSmallTable (exchanged_state self.old p q) }
        ensures exchanged { OnOk result (self.new ≡ exchanged_state self.old p q) }
        ensures refused { OnErr result (self.new ≡ self.old) }
    {
        let columns = self.columns() as usize;
        let found = exchanged(
            alloc,
            self.lines.as_slice(),
            self.basis.as_slice(),
            columns,
            p as usize,
            q as usize,
        )?;
        let Ok(lines) = found else {
            unreachable!();
        };
        self.lines = lines;
        self.basis[p as usize] = q;
        Ok(())
    }

    /// Makes column `q` basic in row `p`, whose entry there is below 0, and counts a pivot. Overflow exactly where a whole entry of the new
    /// table passes a magnitude of 10^18, with the first such place by rows. After a refusal the tableau and the ledger are as before.
    pub fn pivot(
        &mut self,
        alloc: Global,
        p: u32,
        q: u32,
        pivots: &mut Pivots,
    ) -> Result<(), PivotError>
        requires place { IsNegative self.old p q }
        requires room { pivots.old < 2 ^ 64 - 1 }
        ensures exchanged { OnOk result (self.new ≡ exchanged_state self.old p q) }
        ensures small { OnOk result (IsSmallTable self.new) }
        ensures counted { OnOk result (pivots.new ≡ pivots.old + 1) }
        ensures refused { IfErr result (λ error. IsRefused self.old p q error × (self.new ≡ self.old) × (pivots.new ≡ pivots.old)) }
    {
        let columns = self.columns() as usize;
        let found = exchanged(
            alloc,
            self.lines.as_slice(),
            self.basis.as_slice(),
            columns,
            p as usize,
            q as usize,
        )?;
        match found {
            Ok(lines) => {
                self.lines = lines;
                self.basis[p as usize] = q;
                pivots.raise();
                Ok(())
            }
            Err((i, j)) => {
                let basis = Vec::from_slice(alloc, self.basis.as_slice())?;
                Err(PivotError::Overflow {
                    basis: List::of(basis),
                    p,
                    q,
                    i: i as u32,
                    j: j as u32,
                })
            }
        }
    }
}
