//! The laws of this crate, each a function without a body whose contract is the law.
ghost use Rattle.rt_shapes.specs.Laws.{FirstShapeIsUnsound, OneRectangleAround};

/// Law: a first shape is never found in a layout whose shapes are sound. So a view that is told, or a refusal that names a shape, is exact both ways.
pub fn first_shape_is_unsound()
    ensures { FirstShapeIsUnsound }
{}

/// Law: there is one least rectangle around a piece. So the rectangle of a refusal is that of its piece.
pub fn one_rectangle_around()
    ensures { OneRectangleAround }
{}
