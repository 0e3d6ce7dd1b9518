//! The laws of this crate, each a function without a body whose contract is the law.
ghost use Rattle.rt_links.specs.Laws.{NetsAreCarried, NetNumbersAreCarried, ScalingCarriesWires};
ghost use Rattle.rt_links.specs.Sample.{TwoMetalsAreCarried};

/// Law: where the masks that conduct are carried and each cut is kept inside of its hosts, spots of two strips are of one net in the source
/// exactly where spots of these strips are in the drawing.
pub fn nets_are_carried()
    ensures { NetsAreCarried }
{}

/// Law: where nets are numbered in the order in which terminals meet them, terminals on the same strips get the same numbers in the source
/// and in the drawing.
pub fn net_numbers_are_carried()
    ensures { NetNumbersAreCarried }
{}

/// Law: wires that are carried in steps are carried in database units.
pub fn scaling_carries_wires()
    ensures { ScalingCarriesWires }
{}

/// Law: there are two metals with a cut between them that are carried. So the laws on nets speak of something.
pub fn two_metals_are_carried()
    ensures { TwoMetalsAreCarried }
{}
