//! What holds of entries, and of a pivot's answers.
ghost use Rattle.rt_tableau.specs.Laws.{OneEntry, OverflowExcludes};

/// Law: where a pivot has a first place past the limit, the whole entries of the new basis aren't all small, whichever way they are found. (This
/// project's own.)
pub fn overflow_excludes()
    ensures { OverflowExcludes }
{}

/// Law: rows, a goal and a basis have one entry at a place, costs among them, whichever way the basis was reached. (This project's own.)
pub fn one_entry()
    ensures { OneEntry }
{}
