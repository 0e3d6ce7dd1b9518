//! Cuts that are no rectangles.
ghost use Rattle.std.specs.Prelude.{◌<◌, ◌^◌, length, map, All, IfErr, OnOk, MatchBool, MatchOption};
ghost use Rattle.rt_strips.specs.Placed.{placed};
ghost use Rattle.rt_strips.specs.Seams.{IsSeam, AreSeamsOf};
ghost use Rattle.rt_strips.specs.StripsOf.{AreStrips};
ghost use Rattle.rt_shapes.specs.Cutting.{CutsStandAlone, IsBentAt};
ghost use Rattle.rt_shapes.specs.Sound.{IsBentRefusal};

use crate::boxes::around;
use crate::kinds::cut_at;
use rt_pieces::stands;
use rt_strips::{Seam, Strip, seams};
use rt_tech::Tech;
use rt_view::{NetError, Shape};
use std::alloc::Global;

/// That no strip of a cut stands on another: each piece of a cut is then a strip, a rectangle. `CutShape` with the least rectangle around the piece at the
/// first seam at which one does; `OutOfMemory` where memory is wanted.
pub(crate) fn check_bent(alloc: Global, strips: &[Strip], tech: &Tech) -> Result<(), NetError>
    requires few { length strips.now < 2 ^ 30 }
    requires strips { AreStrips (map placed strips.now) }
    ensures alone { OnOk result (CutsStandAlone tech.now (map placed strips.now)) }
    ensures refused { IfErr result (IsBentRefusal tech.now (map placed strips.now)) }
{
    let seams = seams(alloc, strips)?;
    match first_bent(strips, seams.as_slice(), tech) {
        Some(seam) => Err(bent_piece(alloc, strips, seams.as_slice(), tech, &seam)),
        None => Ok(()),
    }
}

// The refusal of the piece at a bent seam, or that memory is wanted.
fn bent_piece(alloc: Global, strips: &[Strip], seams: &[Seam], tech: &Tech, seam: &Seam) -> NetError
    requires few { length strips.now < 2 ^ 30 }
    requires strips { AreStrips (map placed strips.now) }
    requires seams { AreSeamsOf (map placed strips.now) seams.now }
    requires bent { IsBentAt tech.now (map placed strips.now) seam.now }
    ensures { IsBentRefusal tech.now (map placed strips.now) result }
{
    match around(alloc, strips, seams, seam.below) {
        Ok(rect) => NetError::SourceShape {
            shape: Shape::CutShape,
            rect,
        },
        Err(_) => NetError::OutOfMemory,
    }
}

// The first seam at which a strip of a cut stands on another, if there is one.
fn first_bent(strips: &[Strip], seams: &[Seam], tech: &Tech) -> Option<Seam>
    requires { AreSeamsOf (map placed strips.now) seams.now }
    ensures { MatchOption result (All (λ seam. ¬ IsBentAt tech.now (map placed strips.now) seam) seams.now) (IsBentAt tech.now (map placed strips.now)) }
{
    for seam in seams {
        if is_bent(strips, seam, tech) {
            return Some(*seam);
        }
    }
    None
}

// Whether at the seam a strip of a cut stands on another.
fn is_bent(strips: &[Strip], seam: &Seam, tech: &Tech) -> bool
    requires { IsSeam (map placed strips.now) seam.now.below seam.now.above }
    ensures { MatchBool result (IsBentAt tech.now (map placed strips.now) seam.now) (¬ IsBentAt tech.now (map placed strips.now) seam.now) }
{
    let below = &strips[seam.below as usize];
    match cut_at(tech, below.mask) {
        Some(_) => stands(strips, below.mask, seam),
        None => false,
    }
}
