//! The laws of this crate, each a function without a body whose contract is the law.
ghost use Rattle.rt_netlist_laws.specs.Laws.{MovedKeepsNets, MovedKeepsNumbers};

/// Law: where positions meet both templates, spots of two strips are of one net in the source exactly where spots of these strips are of one
/// net in the drawing, in database units.
pub fn moved_keeps_nets()
    ensures { MovedKeepsNets }
{}

/// Law: where positions meet both templates, and each label is drawn at the lower left corner of a strip that it touches, the labels of the
/// drawing have the numbers of nets that those of the source have.
pub fn moved_keeps_numbers()
    ensures { MovedKeepsNumbers }
{}
