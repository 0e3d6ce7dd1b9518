//! The laws of this crate, each a function without a body whose contract is the law.
ghost use Rattle.rt_written.specs.Laws.{CornersAreOneSlab, FlatIsTheDrawing, DrawingIsFlat, WrittenReadsBack, StreamReadsBack, LayoutCoversAlike, LayoutKeepsRules, FlatKeepsRules};

/// Law: the polygon round a rectangle has that rectangle as its one slab.
pub fn corners_are_one_slab()
    ensures { CornersAreOneSlab }
{}

/// Law: whatever a written cell flattens to has just the drawn rectangles, by mask and in order, and the drawn labels, in order.
pub fn flat_is_the_drawing()
    ensures { FlatIsTheDrawing }
{}

/// Law: each layout of just the drawn rectangles and labels is what the written cell flattens to.
pub fn drawing_is_flat()
    ensures { DrawingIsFlat }
{}

/// Law: a written cell flattens to such a layout, where no side of a rectangle is farther from the axes than a layout takes.
pub fn written_reads_back()
    ensures { WrittenReadsBack }
{}

/// Law: a written cell that bytes hold flattens to such a layout.
pub fn stream_reads_back()
    ensures { StreamReadsBack }
{}

/// Law: the masks of a layout of just these rectangles and labels cover what the rectangles cover.
pub fn layout_covers_alike()
    ensures { LayoutCoversAlike }
{}

/// Law: a layout of just these rectangles and labels breaks no rule where they break none.
pub fn layout_keeps_rules()
    ensures { LayoutKeepsRules }
{}

/// Law: whatever a written cell flattens to breaks no rule where the drawn rectangles break none.
pub fn flat_keeps_rules()
    ensures { FlatKeepsRules }
{}
