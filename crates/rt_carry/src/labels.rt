//! Labels as texts of a cell, each at the lower left corner of the drawing of the first strip that it touches.
ghost use Rattle.std.specs.Prelude.{◌≡◌, ◌<◌, length, map, All, IfOk, MatchBool};
ghost use Rattle.rt_tech.specs.Tech.{mask_at};
ghost use Rattle.rt_rows.specs.Places.{places};
ghost use Rattle.rt_strips.specs.Placed.{placed};
ghost use Rattle.rt_template.specs.Drawing.{drawn_area};
ghost use Rattle.rt_shapes.specs.Touching.{IsTouching};
ghost use Rattle.rt_carry.specs.Drawings.{HavePlaces, CanBeDrawn};
ghost use Rattle.rt_carry.specs.Texts.{pair_of_notes, IsNoted, AreNoted, TouchesSome, IsFirstTouched, IsNoteOf, AreNotesOf};

use crate::drawing::in_units;
use gds_stream::Note;
use rt_base::{List, OutOfMemory};
use rt_layout::Label;
use rt_rows::Positions;
use rt_strips::Strip;
use rt_tech::Tech;
use std::alloc::Global;

/// A text for each label, in order.
#[tactic(auto, using(crate::proofs::Touched::no_notes, crate::proofs::Touched::all_notes))]
pub(crate) fn notes(
    alloc: Global,
    target: &Tech,
    strips: &[Strip],
    at: &Positions,
    labels: &[Label],
) -> Result<List<Note>, OutOfMemory>
    requires entries { HavePlaces (map placed strips.now) at.now }
    requires drawable { CanBeDrawn target.now (map placed strips.now) (places at.now) }
    requires noted { AreNoted target.now labels.now }
    requires touching { All (TouchesSome (map placed strips.now)) labels.now }
    ensures { IfOk result (AreNotesOf target.now (map placed strips.now) (places at.now) labels.now) }
{
    let mut list = List::new(alloc);
    for label in labels {
        let text = note(alloc, target, strips, at, label)?;
        list.push(text)?;
    }
    Ok(list)
}

// The text of a label.
fn note(
    alloc: Global,
    target: &Tech,
    strips: &[Strip],
    at: &Positions,
    label: &Label,
) -> Result<Note, OutOfMemory>
    requires entries { HavePlaces (map placed strips.now) at.now }
    requires drawable { CanBeDrawn target.now (map placed strips.now) (places at.now) }
    requires noted { IsNoted target.now label.now }
    requires touching { TouchesSome (map placed strips.now) label.now }
    ensures { IfOk result (IsNoteOf target.now (map placed strips.now) (places at.now) label.now) }
{
    let text = label.text.copy(alloc)?;
    let pair = pair_of(target, label);
    let strip = first_touched(strips, label);
    let place = corner(target, strips, at, strip);
    Ok(Note {
        layer: pair.0,
        texttype: pair.1,
        x: place.0,
        y: place.1,
        text,
    })
}

// The lower left corner of the drawing of a strip, in database units.
fn corner(target: &Tech, strips: &[Strip], at: &Positions, i: usize) -> (i32, i32)
    requires strip { i < length strips.now }
    requires entries { HavePlaces (map placed strips.now) at.now }
    requires drawable { CanBeDrawn target.now (map placed strips.now) (places at.now) }
    ensures { result ≡ ((drawn_area target.now.grid (places at.now) i).left, (drawn_area target.now.grid (places at.now) i).bottom) }
{
    let left = in_units(target, at.l.as_slice()[i]);
    let bottom = in_units(target, at.b.as_slice()[i]);
    (left, bottom)
}

// The layer and the text type of labels of the label's mask.
fn pair_of(target: &Tech, label: &Label) -> (i16, i16)
    requires { IsNoted target.now label.now }
    ensures { result ≡ pair_of_notes (mask_at target.now label.now.mask) }
{
    match target.masks.as_slice()[label.mask as usize].note {
        Some(pair) => pair,
        None => (0, 0),
    }
}

// The first strip of its mask that the label touches.
fn first_touched(strips: &[Strip], label: &Label) -> usize
    requires { TouchesSome (map placed strips.now) label.now }
    ensures { IsFirstTouched (map placed strips.now) label.now result }
{
    for i in 0..strips.len() {
        if touches(&strips[i], label) {
            return i;
        }
    }
    0
}

// Whether the strip is of the label's mask and touches it.
fn touches(strip: &Strip, label: &Label) -> bool
    ensures { MatchBool result (IsTouching (placed strip.now) label.now) (¬ IsTouching (placed strip.now) label.now) }
{
    if strip.mask != label.mask {
        return false;
    }
    if label.at.0 < strip.at.x1 || strip.at.x2 < label.at.0 {
        return false;
    }
    if label.at.1 < strip.at.y1 || strip.at.y2 < label.at.1 {
        return false;
    }
    true
}
