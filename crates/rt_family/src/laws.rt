//! The laws of this crate, each a function without a body whose contract is the law.
ghost use Rattle.rt_family.specs.Laws.{WholeRunsAreAFamily, CoveredHasHosts, RowsCarry, UntouchedIsCarried, CarriedKeepsWidth, CarriedKeepsSpace, CarriedKeepsPieces, CarriedKeepsPiecesApart, CarriedKeepsNotch, CarriedHostsCover, ClearStaysClear, ScalingCarries, ListKeepsRules};
ghost use Rattle.rt_family.specs.Sample.{AnLIsCarried};

/// Law: nonempty rectangles of a mask that cover cells once and whose rows are whole runs are a family: between two of them in one row
/// lies a column.
pub fn whole_runs_are_a_family()
    ensures { WholeRunsAreAFamily }
{}

/// Law: a rectangle that a mask covers has hosts: strips from the lowest to the highest, each of which spans its columns and stands on
/// the one before; and no other strip shares a cell with it.
pub fn covered_has_hosts()
    ensures { CoveredHasHosts }
{}

/// Law: a drawing that meets the rows for width, space and standing carries its mask.
pub fn rows_carry()
    ensures { RowsCarry }
{}

/// Law: strips of which none stands on another are carried by the rows for width and space alone.
pub fn untouched_is_carried()
    ensures { UntouchedIsCarried }
{}

/// Law: the drawing of a carried mask keeps the width.
pub fn carried_keeps_width()
    ensures { CarriedKeepsWidth }
{}

/// Law: the drawing of a carried mask keeps the space, be it that of two pieces or that of a notch in one piece.
pub fn carried_keeps_space()
    ensures { CarriedKeepsSpace }
{}

/// Law: the pieces of the drawing of a carried mask are those of its source.
pub fn carried_keeps_pieces()
    ensures { CarriedKeepsPieces }
{}

/// Law: the pieces of the drawing of a carried mask keep a space that only strips of one piece may fall below.
pub fn carried_keeps_pieces_apart()
    ensures { CarriedKeepsPiecesApart }
{}

/// Law: the drawing of a carried mask keeps a notch of its own: gaps within one piece are as wide as the least space of its strips.
pub fn carried_keeps_notch()
    ensures { CarriedKeepsNotch }
{}

/// Law: what lies within the hosts of a rectangle, once they are drawn, is covered.
pub fn carried_hosts_cover()
    ensures { CarriedHostsCover }
{}

/// Law: strips of two masks that are kept clear and share no cell in the source are drawn apart.
pub fn clear_stays_clear()
    ensures { ClearStaysClear }
{}

/// Law: a mask that is carried in steps is carried in database units.
pub fn scaling_carries()
    ensures { ScalingCarries }
{}

/// Law: what the entries of a list of rectangles keep, by their numbers, the list keeps.
pub fn list_keeps_rules()
    ensures { ListKeepsRules }
{}

/// Law: there is a carried mask, an L of two strips. So the laws on carried masks speak of something.
pub fn an_l_is_carried()
    ensures { AnLIsCarried }
{}
