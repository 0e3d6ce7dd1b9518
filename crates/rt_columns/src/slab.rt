//! The names that a slab of columns shows.
ghost use Rattle.std.specs.Prelude.{◌≡◌, map, OnOk};
ghost use Rattle.rt_sweep.specs.Rows.{AreAcross, IsKept};
ghost use Rattle.rt_strips.specs.Placed.{placed};
ghost use Rattle.rt_columns.specs.Bars.{AreBarsOf, ArePassing};
ghost use Rattle.rt_columns.specs.Slabs.{AddsSlab};

use crate::chains::add_runs;
use crate::gaps::add_gaps;
use rt_base::{List, OutOfMemory};
use rt_rows::Name;
use rt_strips::Strips;
use rt_sweep::{Bar, Slab};

/// Adds the names of gaps and runs at the columns of a slab, and of runs at its last column and the one behind it. The buffers are for the bars that
/// go on, and for places. The one error is a want of memory.
pub(crate) fn add_slab(
    strips: &Strips,
    active: &[Bar],
    slab: &Slab,
    through: &mut Vec<Bar>,
    reached: &mut Vec<usize>,
    names: &mut List<Name>,
) -> Result<(), OutOfMemory>
    requires bars { AreBarsOf (map placed strips.now.list) active.now }
    ensures { OnOk result (AddsSlab (map placed strips.now.list) active.now slab.now.top names.old names.new) }
{
    add_gaps(strips, active, names)?;
    add_runs(strips, active, reached, names)?;
    pass(active, slab, through)?;
    add_runs(strips, through.as_slice(), reached, names)?;
    Ok(())
}

// Writes the bars that go on beyond the slab in the place of what the buffer held.
fn pass(active: &[Bar], slab: &Slab, into: &mut Vec<Bar>) -> Result<(), OutOfMemory>
    requires bars { AreAcross active.now }
    ensures { OnOk result (ArePassing active.now slab.now.top into.new.items) }
{
    into.clear();
    for bar in active {
        keep(into, bar, slab)?;
    }
    Ok(())
}

// Appends the bar where it goes on beyond the slab.
fn keep(into: &mut Vec<Bar>, bar: &Bar, slab: &Slab) -> Result<(), OutOfMemory>
    ensures { OnOk result (IsKept slab.now.top bar.now into.old.items into.new.items) }
{
    if bar.at.y2 > slab.top {
        into.push(*bar)?;
    }
    Ok(())
}
