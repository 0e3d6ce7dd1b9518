//! What columns are worth at the point of a basis.
ghost use Rattle.std.specs.Prelude.{◌+◌, ◌<◌, length, IfOk};
ghost use Rattle.rt_simplex.specs.Shares.{HasTable, AreFilled};

use rt_base::{List, OutOfMemory};
use rt_frac::Frac;
use rt_tableau::Tableau;
use std::alloc::Global;

// That the rows have a table: each entry tells it, and no rows need none.
pub(crate) fn look(table: &Tableau)
    ensures { HasTable table.now }
{
    if table.rows() > 0 {
        let _entry = table.whole(0, 0);
    }
}

// Fills in what the basic column of a row is worth, if it's a variable's.
fn fill(table: &Tableau, i: u32, at: &mut [Frac])
    requires there { i < length table.now.system.rows }
    requires so { AreFilled table.now i at.old }
    ensures { AreFilled table.now (i + 1) at.new }
{
    let column = table.basic(i) as usize;
    let value = table.entry(i, table.columns());
    if column < at.len() {
        at[column] = value;
    }
}

// What the columns of the variables are worth, in order.
pub(crate) fn values(alloc: Global, table: &Tableau) -> Result<List<Frac>, OutOfMemory>
    ensures { IfOk result (AreFilled table.now (length table.now.system.rows)) }
{
    let variables = (table.columns() - table.rows()) as usize;
    let mut at = vec![in alloc; Frac { num: 0, den: 1 }; variables]?;
    for i in 0..table.rows() {
        fill(table, i, at.as_mut_slice());
    }
    Ok(List::of(at))
}
