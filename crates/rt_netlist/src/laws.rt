//! The laws of this crate, each a function without a body whose contract is the law.
ghost use Rattle.rt_netlist.specs.Laws.{OneListOfNumbers, AlikeLayoutsExtractAlike, LabelsAreOnOneNet, NumbersTellNets};

/// Law: a layout has one list of numbers of its labels' nets.
pub fn one_list_of_numbers()
    ensures { OneListOfNumbers }
{}

/// Law: layouts whose masks cover the same cells have the same numbers, for the same labels.
pub fn alike_layouts_extract_alike()
    ensures { AlikeLayoutsExtractAlike }
{}

/// Law: all live spots at a label are of one net, in a layout that breaks no rule of its table.
pub fn labels_are_on_one_net()
    ensures { LabelsAreOnOneNet }
{}

/// Law: labels on two live spots have one number exactly where the spots are of one net, in a layout that breaks no rule of its table.
pub fn numbers_tell_nets()
    ensures { NumbersTellNets }
{}
