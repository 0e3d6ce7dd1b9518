//! The laws of positions that meet both templates, each a function without a body whose contract is the law.
ghost use Rattle.rt_moved.specs.Laws.{MovedBreaksNoRule, MovedFits};

/// Law: positions that meet both templates draw a layout that breaks no rule of the target's table, in database units.
pub fn moved_breaks_no_rule()
    ensures { MovedBreaksNoRule }
{}

/// Law: positions that meet both templates draw rectangles that have cells and lie within the extents, and these can be written.
pub fn moved_fits()
    ensures { MovedFits }
{}
