//! Strips with their seams, and what shows that a rule is broken.
ghost use Rattle.std.specs.Prelude.{◌≡◌};

use rt_base::Cell;
use rt_strips::{Seam, Strip};

/// The strips of masks, and their seams.
#[derive(Clone, Copy, Drop)]
pub(crate) struct Rows<'a> {
    /// The strips, in order of mask, then bottom, then left.
    pub(crate) strips: &'a [Strip],
    /// Where one ends and others begin.
    pub(crate) seams: &'a [Seam],
}

/// What shows that a rule is broken, in the units of the strips. (This project's own.)
#[derive(Clone, Copy, Drop)]
pub struct Witness {
    /// One of the two cells between which it is broken.
    pub p: Cell,
    /// The other one.
    pub q: Cell,
    /// The extent or the gap that was found.
    pub found: i64,
}

impl Witness {
    /// The same witness with columns and rows exchanged.
    pub(crate) fn exchanged(&self) -> Witness
        ensures p { result.p ≡ record { x = self.now.p.y; y = self.now.p.x } }
        ensures q { result.q ≡ record { x = self.now.q.y; y = self.now.q.x } }
        ensures found { result.found ≡ self.now.found }
    {
        Witness {
            p: Cell {
                x: self.p.y,
                y: self.p.x,
            },
            q: Cell {
                x: self.q.y,
                y: self.q.x,
            },
            found: self.found,
        }
    }
}
