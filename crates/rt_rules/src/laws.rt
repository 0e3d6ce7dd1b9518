//! The laws of this crate, each a function without a body whose contract is the law.
ghost use Rattle.rt_rules.specs.Cuts.{SizeBreachBreaks, EnclosureBreachBreaks, ApartBreachBreaks};
ghost use Rattle.rt_rules.specs.Pairs.{ValidIsMeasured};
ghost use Rattle.rt_rules.specs.Rules.{FirstBreachBreaks};

/// Law: a first breach is never found in a layout that breaks no rule. So a check that names one, or answers that there is none, is exact
/// both ways.
pub fn first_breach_breaks()
    ensures { FirstBreachBreaks }
{}

/// Law: what shows that the size of a cut, its enclosure or a distance between two masks isn't kept is never found where it is.
pub fn breaches_of_two_masks_break()
    ensures size { SizeBreachBreaks }
    ensures enclosure { EnclosureBreachBreaks }
    ensures distance { ApartBreachBreaks }
{}

/// Law: the masks that a valid table's enclosures and distances name are there, and their numbers are ones that a table can ask for.
pub fn valid_pairs_are_measured()
    ensures { ValidIsMeasured }
{}
