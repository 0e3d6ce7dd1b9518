//! The channels of a layout that are rectangles.
ghost use Rattle.std.specs.Prelude.{◌≡◌, ◌<◌, ◌^◌, ◌++◌, IfOk, OnOk, MatchBool, length, map};
ghost use Rattle.rt_base.specs.Plane.{area};
ghost use Rattle.rt_cells.specs.Rectangles.{Covers};
ghost use Rattle.rt_tech.specs.Tech.{mask_count};
ghost use Rattle.rt_strips.specs.Placed.{placed};
ghost use Rattle.rt_strips.specs.StripsOf.{AreStrips};
ghost use Rattle.rt_strips.specs.OneMask.{AreAllStrips};
ghost use Rattle.rt_strips.specs.Tallies.{at_mask, AddsStrips};
ghost use Rattle.rt_strips.specs.Channels.{IsInChannel};
ghost use Rattle.rt_strips.specs.Roles.{AreOfRole};
ghost use Rattle.rt_strips.specs.Untouched.{IsInPiece, AreMarks, AreMarkedFor, AddsUntouched};

use crate::contact::stands_on;
use crate::listing::Strip;
use crate::meeting::{Meeting, meetings_of};
use crate::one_mask::strips_of_both;
use crate::tally::Tally;
use rt_base::{OutOfMemory, Rect};
use rt_layout::Layout;
use rt_tech::{Mask, Role, Tech};
use std::alloc::Global;

// Adds the channels that are rectangles. The one error is a want of memory.
pub(crate) fn add_channels(
    alloc: Global,
    layout: &Layout,
    tech: &Tech,
    most: usize,
    tally: &mut Tally,
) -> Result<(), OutOfMemory>
    requires masks { length layout.now.masks ≡ mask_count tech.now }
    requires few_masks { mask_count tech.now < 2 ^ 32 }
    ensures { OnOk result (AddsStrips (IsInChannel layout.now tech.now) (mask_count tech.now) most tally.old tally.new) }
{
    let gates = rects_of(alloc, layout, tech, Role::Gate)?;
    let actives = rects_of(alloc, layout, tech, Role::Active)?;
    let both = strips_of_both(alloc, gates.as_slice(), actives.as_slice())?;
    let channel = tech.masks.as_slice().len() as u32;
    add_pieces(alloc, both.as_slice(), channel, most, tally)
}

// The rectangles of all masks of the role.
fn rects_of(
    alloc: Global,
    layout: &Layout,
    tech: &Tech,
    role: Role,
) -> Result<Vec<Rect>, OutOfMemory>
    requires { length layout.now.masks ≡ mask_count tech.now }
    ensures { IfOk result (λ rects. AreOfRole layout.now tech.now (mask_count tech.now) role rects.items) }
{
    let mut rects = Vec::new(alloc);
    let shapes = layout.masks.as_slice();
    let masks = tech.masks.as_slice();
    for m in 0..masks.len() {
        if !has_role(&masks[m], role) {
            continue;
        }
        rects.extend_from_slice(shapes[m].as_slice())?;
    }
    Ok(rects)
}

// Whether the mask is of the role.
fn has_role(mask: &Mask, role: Role) -> bool
    ensures { MatchBool result (mask.now.role ≡ role) (¬ (mask.now.role ≡ role)) }
{
    mask.role == role
}

// Adds, as strips of the mask, those of the rectangles that are whole pieces. The rectangles are the strips of what they cover.
fn add_pieces(
    alloc: Global,
    areas: &[Rect],
    mask: u32,
    most: usize,
    tally: &mut Tally,
) -> Result<(), OutOfMemory>
    requires { AreAllStrips (Covers (map area areas.now)) (map area areas.now) }
    ensures { OnOk result (AddsStrips (IsInPiece (Covers (map area areas.now))) mask most tally.old tally.new) }
{
    let strips = strips_on(alloc, areas, mask)?;
    let touched = marks(alloc, strips.as_slice())?;
    add_untouched(strips.as_slice(), touched.as_slice(), most, tally)
}

// The rectangles as strips of the mask.
fn strips_on(alloc: Global, areas: &[Rect], mask: u32) -> Result<Vec<Strip>, OutOfMemory>
    ensures { IfOk result (λ strips. map placed strips.items ≡ map (at_mask mask) (map area areas.now)) }
{
    let mut strips = Vec::new(alloc);
    for at in areas {
        strips.push(Strip { mask, at: *at })?;
    }
    Ok(strips)
}

// For each strip, whether it touches another.
fn marks(alloc: Global, strips: &[Strip]) -> Result<Vec<bool>, OutOfMemory>
    requires { AreStrips (map placed strips.now) }
    ensures { IfOk result (λ marks. AreMarks (map placed strips.now) marks.items) }
{
    let found = meetings_of(alloc, strips)?;
    let mut touched = vec![in alloc; false; strips.len()]?;
    for meeting in &found {
        mark(touched.as_mut_slice(), strips, meeting);
    }
    Ok(touched)
}

// Marks both strips of a meeting, if they touch.
fn mark(touched: &mut [bool], strips: &[Strip], meeting: &Meeting)
    requires below { meeting.now.below < length strips.now }
    requires above { meeting.now.above < length strips.now }
    requires count { length touched.old ≡ length strips.now }
    ensures { AreMarkedFor (map placed strips.now) meeting.now touched.old touched.new }
{
    if stands_on(&strips[meeting.below], &strips[meeting.above]) {
        touched[meeting.below] = true;
        touched[meeting.above] = true;
    }
}

// Adds the strips that touch no other.
fn add_untouched(
    strips: &[Strip],
    touched: &[bool],
    most: usize,
    tally: &mut Tally,
) -> Result<(), OutOfMemory>
    requires { AreMarks (map placed strips.now) touched.now }
    ensures { OnOk result (AddsUntouched (map placed strips.now) (length strips.now) most tally.old tally.new) }
{
    for i in 0..strips.len() {
        if touched[i] {
            continue;
        }
        tally.add(strips[i], most)?;
    }
    Ok(())
}
