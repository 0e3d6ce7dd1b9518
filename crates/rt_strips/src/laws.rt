//! The laws of this crate, each a function without a body whose contract is the law.
ghost use Rattle.rt_strips.specs.Laws.{OneListOfStrips, StripsCover, ChannelsArePieces};

/// Law: a layout has one list of strips: two lists that are its strips are the same list.
pub fn one_list_of_strips()
    ensures { OneListOfStrips }
{}

/// Law: the strips of a mask cover the cells that the mask covers, and no others.
pub fn strips_cover()
    ensures { StripsCover }
{}

/// Law: the strips behind those of the masks are the channels that are rectangles: the pieces of the cells that gate and active both cover.
pub fn channels_are_pieces()
    ensures { ChannelsArePieces }
{}
