//! What holds of slabs, of paths and of steps, for callers.
ghost use Rattle.std.specs.Prelude.{◌≡◌, ◌↔◌, ℤ, ◌+ℤ◌, List, Contains};
ghost use Rattle.rt_base.specs.declared.plane.Point.{Point};
ghost use Rattle.rt_cells.specs.Rectangles.{Rectangle, IsNonempty, Holds, Covers};
ghost use Rattle.gds_slabs.specs.declared.path.PathEnd.{PathEnd};
ghost use Rattle.gds_slabs.specs.declared.step.Step.{Step};
ghost use Rattle.gds_slabs.specs.Polygon.{Inside, IsClosed, IsSlanted};
ghost use Rattle.gds_slabs.specs.Slabs.{IsSlabs};
ghost use Rattle.gds_slabs.specs.Path.{PathArea, path_areas};
ghost use Rattle.gds_slabs.specs.Steps.{moved_point, moved_rect, moved_cell, IsMovedFrom, IsWithin, ShiftsWithin, AreCorners};

/// Law: a polygon has one list of slabs at most.
pub fn slabs_are_one()
    ensures { (points : List Point) (rects others : List Rectangle) → IsSlabs points rects → IsSlabs points others → rects ≡ others }
{}

/// Law: a closed polygon without slanted sides has its slabs.
pub fn slabs_are_there()
    ensures { (points : List Point) → IsClosed points → (¬ IsSlanted points) → (rects : List Rectangle) × IsSlabs points rects }
{}

/// Law: the slabs of such a polygon cover the cells inside.
pub fn slabs_cover_what_is_inside()
    ensures { (points : List Point) (rects : List Rectangle) (x y : ℤ) → IsClosed points → (¬ IsSlanted points) → IsSlabs points rects →
        (Covers rects x y ↔ Inside points x y) }
{}

/// Law: no cell is in two slabs.
pub fn slabs_are_apart()
    ensures { (points : List Point) (rects : List Rectangle) (r q : Rectangle) (x y : ℤ) → IsSlabs points rects →
        Contains rects r → Contains rects q → Holds r x y → Holds q x y → r ≡ q }
{}

/// Law: the rectangles of a path are those of its segments and the squares at its points.
pub fn path_areas_are_listed()
    ensures { (half : ℤ) (end : PathEnd) (points : List Point) (r : Rectangle) →
        (Contains (path_areas half end points) r ↔ PathArea half end points r) }
{}

/// Law: a cell is in a moved rectangle exactly where it is a moved cell of the rectangle.
pub fn moved_rect_holds_moved_cells()
    ensures { (step : Step) (r : Rectangle) (u v : ℤ) → (Holds (moved_rect step r) u v ↔ IsMovedFrom step r u v) }
{}

/// Law: a moved rectangle has a cell where the rectangle has.
pub fn moved_rect_has_a_cell()
    ensures { (step : Step) (r : Rectangle) → IsNonempty r → IsNonempty (moved_rect step r) }
{}

/// Law: a step moves a rectangle no further from the axes than by its shift.
pub fn moved_rect_stays_within()
    ensures { (step : Step) (r : Rectangle) (reach shift : ℤ) → IsWithin reach r → ShiftsWithin shift step →
        IsWithin (reach +ℤ shift) (moved_rect step r) }
{}

/// Law: two cells are moved to two.
pub fn moved_cells_are_apart()
    ensures { (step : Step) (p q : ℤ × ℤ) → moved_cell step p ≡ moved_cell step q → p ≡ q }
{}

/// Law: corners of a rectangle are moved as points are. So a label at a corner of a rectangle stays there.
pub fn moved_corners_are_corners()
    ensures { (step : Step) (p q : ℤ × ℤ) (r : Rectangle) → AreCorners p q r →
        AreCorners (moved_point step p) (moved_point step q) (moved_rect step r) }
{}
