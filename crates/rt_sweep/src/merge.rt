//! Bars of two lists as one, in order of their left ends.
ghost use Rattle.std.specs.Prelude.{◌≡◌, ◌<◌, ◌≤◌, ◌++◌, [], ◌∷◌, length, OnOk, MatchBool};
ghost use Rattle.rt_sweep.specs.Rows.{AreAcross, IsMerged, IsKept, IsNextAcross};

use crate::bar::Bar;
use rt_base::OutOfMemory;

// Writes the bars of both lists that end above the row, in order of their left ends, in the place of what the buffer held.
pub(crate) fn merge(
    going: &[Bar],
    beginning: &[Bar],
    row: i64,
    into: &mut Vec<Bar>,
) -> Result<(), OutOfMemory>
    requires going { AreAcross going.now }
    requires beginning { AreAcross beginning.now }
    ensures { OnOk result (IsMerged going.now beginning.now row into.new.items) }
{
    into.clear();
    let mut i = 0;
    let mut j = 0;
    while i < going.len() || j < beginning.len() {
        if is_next(going, i, beginning, j) {
            keep(into, &going[i], row)?;
            i += 1;
        } else {
            keep(into, &beginning[j], row)?;
            j += 1;
        }
    }
    Ok(())
}

// Whether bar i of the first list comes before bar j of the second, where one of them is there.
fn is_next(going: &[Bar], i: usize, beginning: &[Bar], j: usize) -> bool
    requires going { i ≤ length going.now }
    requires beginning { j ≤ length beginning.now }
    requires some { length beginning.now ≤ j → i < length going.now }
    ensures { MatchBool result (IsNextAcross going.now i beginning.now j) (IsNextAcross beginning.now j going.now i) }
{
    if i == going.len() {
        return false;
    }
    j == beginning.len() || going[i].at.x1 <= beginning[j].at.x1
}

// Appends the bar where it ends above the row.
fn keep(into: &mut Vec<Bar>, bar: &Bar, row: i64) -> Result<(), OutOfMemory>
    ensures { OnOk result (IsKept row bar.now into.old.items into.new.items) }
{
    if bar.at.y2 > row {
        into.push(*bar)?;
    }
    Ok(())
}
