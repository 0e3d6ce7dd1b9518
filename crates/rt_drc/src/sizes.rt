//! The search for what breaks the size rule of a cut.
ghost use Rattle.std.specs.Prelude.{◌≡◌, pos, ◌-ℤ◌, map, MatchOption};
ghost use Rattle.rt_rules.specs.Cuts.{KeepsSize};
ghost use Rattle.rt_strips.specs.Placed.{placed};
ghost use Rattle.rt_pieces.specs.Members.{held_by};
ghost use Rattle.rt_drc.specs.Cornering.{IsShownAt};
ghost use Rattle.rt_drc.specs.Squares.{AreOwnPieces, IsSquareOn, IsOddOn, ShowsSize};

use crate::rows::Witness;
use rt_base::{Cell, Rect};
use rt_strips::Strip;

/// A piece of mask number `m` that isn't a square of the size, if there is one: its lower left and its upper right cell, and an extent that isn't the
/// size. Each strip of the mask is a piece. It takes no memory. (This project's own.)
pub fn size_breach(strips: &[Strip], m: u32, size: &i64) -> Option<Witness>
    requires { AreOwnPieces m strips.now }
    ensures { MatchOption result (KeepsSize size.now (held_by m strips.now)) (ShowsSize size.now (held_by m strips.now)) }
{
    for strip in strips {
        if let Some(witness) = odd_strip(strip, m, size) {
            return Some(witness);
        }
    }
    None
}

// The corners of the strip, if it is of the mask and isn't a square of the size, and an extent that isn't it.
fn odd_strip(strip: &Strip, m: u32, size: &i64) -> Option<Witness>
    ensures { MatchOption result (IsSquareOn m size.now (placed strip.now)) (IsOddOn m size.now (placed strip.now)) }
{
    if strip.mask != m {
        return None;
    }
    let columns = strip.at.x2 - strip.at.x1;
    let rows = strip.at.y2 - strip.at.y1;
    if columns != *size {
        Some(corners(&strip.at, &columns))
    } else if rows != *size {
        Some(corners(&strip.at, &rows))
    } else {
        None
    }
}

// The lower left and the upper right cell of a rectangle, with a number.
fn corners(at: &Rect, found: &i64) -> Witness
    ensures { IsShownAt at.now.x1 at.now.y1 (at.now.x2 -ℤ pos 1) (at.now.y2 -ℤ pos 1) found.now result }
{
    Witness {
        p: Cell { x: at.x1, y: at.y1 },
        q: Cell {
            x: at.x2 - 1,
            y: at.y2 - 1,
        },
        found: *found,
    }
}
