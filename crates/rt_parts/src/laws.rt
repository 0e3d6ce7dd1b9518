//! What is promised of strips that channels cut. A function here has no code: its contract is the law.

ghost use Rattle.rt_parts.specs.Laws.{CutsStayInParts, PartsKeepPieces};
ghost use Rattle.rt_parts.specs.Sample.{TwoStripsAreCut};

/// A source and a drawing that are cut alike have the same pieces. From this project.
pub fn parts_keep_pieces()
    ensures { PartsKeepPieces }
{}

/// A cut that keeps its side of each channel stays in its piece. From this project.
pub fn cuts_stay_in_parts()
    ensures { CutsStayInParts }
{}

/// Two strips with a lying and an upright channel are cut so, so the laws aren't said of nothing. From this project.
pub fn two_strips_are_cut()
    ensures { TwoStripsAreCut }
{}
