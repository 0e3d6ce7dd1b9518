//! The laws of this crate, each a function without a body whose contract is the law.
ghost use Rattle.rt_cuts.specs.Laws.{CutPiecesAreStrips, CutKeepsSize, HostsKeepEnclosure, MasksKeepDistance, CutKeepsLowerMask, CutKeepsEnclosure, CutKeepsDistance, ScalingKeepsSquares, ScalingKeepsHosts, ScalingKeepsDistances, ScalingKeepsCuts, LabelKeepsPiece};
ghost use Rattle.rt_cuts.specs.Sample.{TwoCutsAreKept};

/// Law: each strip of a cut is a piece, in the source and in the drawing, where the pieces of the source are rectangles.
pub fn cut_pieces_are_strips()
    ensures { CutPiecesAreStrips }
{}

/// Law: a cut whose strips are drawn as squares of the size keeps the rule of size.
pub fn cut_keeps_size()
    ensures { CutKeepsSize }
{}

/// Law: a mask that encloses another in the source encloses its drawing, where strips are drawn inside of their hosts.
pub fn hosts_keep_enclosure()
    ensures { HostsKeepEnclosure }
{}

/// Law: masks that are apart in the source and whose strips are kept clear are apart in the drawing.
pub fn masks_keep_distance()
    ensures { MasksKeepDistance }
{}

/// Law: a strip of a cut lies in a lower mask in the drawing exactly where it does in the source.
pub fn cut_keeps_lower_mask()
    ensures { CutKeepsLowerMask }
{}

/// Law: a lower mask encloses the drawn pieces of a cut that lie in it.
pub fn cut_keeps_enclosure()
    ensures { CutKeepsEnclosure }
{}

/// Law: the pieces of a cut that lie in a lower mask keep their distance from another mask in the drawing.
pub fn cut_keeps_distance()
    ensures { CutKeepsDistance }
{}

/// Law: squares, strips inside of their hosts, masks that are clear of each other, and cuts with their lower mask, kept in steps, are kept in
/// database units, with so many of them a step.
pub fn scaling_keeps_cuts()
    ensures squares { ScalingKeepsSquares }
    ensures hosts { ScalingKeepsHosts }
    ensures distances { ScalingKeepsDistances }
    ensures cuts { ScalingKeepsCuts }
{}

/// Law: a label that is drawn at the lower left corner of a strip that it touches is on the piece that it is on in the source, and on no other.
pub fn label_keeps_piece()
    ensures { LabelKeepsPiece }
{}

/// Law: there are two cuts, one on a lower mask and one elsewhere, that are kept. So the laws on lower masks speak of something.
pub fn two_cuts_are_kept()
    ensures { TwoCutsAreKept }
{}
