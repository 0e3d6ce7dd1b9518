//! Laws of valid tables, for callers.
ghost use Rattle.rt_tech.specs.declared.table.Tech.{Tech};
ghost use Rattle.rt_tech.specs.Tech.{IsValidTech};
ghost use Rattle.rt_tech.specs.Demands.{CutsAreEnclosed, LowersAreKeptApart, CutsAreKeptFromGate, KindsAreParted, NoneIsOfTwoKinds};

/// Law: in a valid table each cut has a rule of enclosure for its upper mask, and one for each of its lower masks.
pub fn cuts_are_enclosed()
    ensures { (tech : Tech) → IsValidTech tech → CutsAreEnclosed tech }
{}

/// Law: in a valid table each cut that stands on one of its lower masks is kept apart from each other one.
pub fn lowers_are_kept_apart()
    ensures { (tech : Tech) → IsValidTech tech → LowersAreKeptApart tech }
{}

/// Law: in a valid table a cut that may stand on the active, and not on the gate, is kept apart from the gate.
pub fn cuts_are_kept_from_gate()
    ensures { (tech : Tech) → IsValidTech tech → CutsAreKeptFromGate tech }
{}

/// Law: any two kinds of a valid table are parted by a mask, which is inside of one and outside of the other.
pub fn kinds_are_parted()
    ensures { (tech : Tech) → IsValidTech tech → KindsAreParted tech }
{}

/// Law: no cells, but for none, are of two kinds of a valid table, whatever the masks cover.
pub fn none_is_of_two_kinds()
    ensures { (tech : Tech) → IsValidTech tech → NoneIsOfTwoKinds tech }
{}
