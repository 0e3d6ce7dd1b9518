//! The condition of `flatten`, as a test: polygons are closed, and paths have two points at least.
ghost use Rattle.std.specs.Prelude.{All, IsTrue};
ghost use Rattle.gds_flat.specs.Drawn.{IsDrawable, AreDrawable};

use gds_slabs::is_closed;
use gds_stream::{Element, Structure};

fn is_drawable(element: &Element) -> bool
    ensures { IsTrue result → IsDrawable element.now }
{
    match element {
        Element::Boundary { points, .. } => is_closed(points.as_slice()),
        Element::Path { points, .. } => points.as_slice().len() >= 2,
        _ => true,
    }
}

fn are_drawable(elements: &[Element]) -> bool
    ensures { IsTrue result → All IsDrawable elements.now }
{
    for element in elements {
        if !is_drawable(element) {
            return false;
        }
    }
    true
}

pub(crate) fn all_drawable(structures: &[Structure]) -> bool
    ensures { IsTrue result → AreDrawable structures.now }
{
    for structure in structures {
        if !are_drawable(structure.elements.as_slice()) {
            return false;
        }
    }
    true
}
