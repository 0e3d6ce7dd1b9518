//! Strips row by row: the pieces of the next row are put onto the strips found so far.
ghost use Rattle.std.specs.Prelude.{◌≡◌, ◌<◌, ◌≤◌, [], length, map, IfOk, OnOk, IsTrue, ◌↔◌};
ghost use Rattle.rt_base.specs.Plane.{area};
ghost use Rattle.rt_strips.specs.Stacks.{IsFirstFrom, GoesOn, IsRaised, IsBegun, PutsPiece, PutsRow, opened_at};
ghost use Rattle.rt_strips.specs.Goings.{opened};

use super::Found;
use rt_base::{OutOfMemory, Rect};
use std::alloc::Global;
use std::mem;

// A piece, and the place of its strip among those kept, or the place behind them.
#[derive(Clone, Copy, Drop)]
pub(crate) struct Going {
    pub(crate) at: Rect,
    pub(crate) place: usize,
}

// The strips found so far, of which no more than `most` are kept.
#[derive(Drop)]
pub(crate) struct Stack {
    pub(crate) most: usize,
    pub(crate) found: Found,
    // those that end at the present height
    pub(crate) going: Vec<Going>,
    // where those that end at the next row's top are written
    pub(crate) spare: Vec<Going>,
}

// No strips.
pub(crate) fn empty_stack(alloc: Global, most: usize) -> Stack
    ensures most { result.most ≡ most }
    ensures strips { result.found.strips.items ≡ [] }
    ensures count { result.found.count ≡ 0 }
    ensures going { result.going.items ≡ [] }
{
    Stack {
        most,
        found: Found {
            strips: Vec::new(alloc),
            count: 0,
        },
        going: Vec::new(alloc),
        spare: Vec::new(alloc),
    }
}

// Puts a row of pieces onto the strips.
pub(crate) fn put_on(stack: &mut Stack, pieces: &[Rect]) -> Result<(), OutOfMemory>
    ensures same { stack.new.most ≡ stack.old.most }
    ensures puts { OnOk result (PutsRow stack.old.most (map area pieces.now)
        (record { kept = map area stack.old.found.strips.items; count = stack.old.found.count; going = map opened stack.old.going.items })
        (record { kept = map area stack.new.found.strips.items; count = stack.new.found.count; going = map opened stack.new.going.items })) }
{
    put_row(
        stack.most,
        &mut stack.found,
        stack.going.as_slice(),
        pieces,
        &mut stack.spare,
    )?;
    mem::swap(&mut stack.going, &mut stack.spare);
    Ok(())
}

// Puts a row of pieces onto the strips, of which `going` are those that end at the present height; those that end at the row's top are
// written into the buffer.
pub(crate) fn put_row(
    most: usize,
    found: &mut Found,
    going: &[Going],
    pieces: &[Rect],
    into: &mut Vec<Going>,
) -> Result<(), OutOfMemory>
    ensures { OnOk result (PutsRow most (map area pieces.now)
        (record { kept = map area found.old.strips.items; count = found.old.count; going = map opened going.now })
        (record { kept = map area found.new.strips.items; count = found.new.count; going = map opened into.new.items })) }
{
    into.clear();
    let mut i = 0;
    for piece in pieces {
        i = first_from(going, i, piece.x1);
        let place = put_piece(most, found, going, i, piece)?;
        into.push(Going { at: *piece, place })?;
    }
    Ok(())
}

// The number of the first strip from a number on that doesn't begin to the left of the column.
fn first_from(going: &[Going], from: usize, left: i64) -> usize
    requires { from ≤ length going.now }
    ensures { IsFirstFrom (map opened going.now) from left result }
{
    let mut number = from;
    while number < going.len() && going[number].at.x1 < left {
        number += 1;
    }
    number
}

// Puts a piece onto strip i of `going`, where that goes on with it; else it begins a strip. The result is the strip's place.
fn put_piece(
    most: usize,
    found: &mut Found,
    going: &[Going],
    i: usize,
    piece: &Rect,
) -> Result<usize, OutOfMemory>
    ensures { IfOk result (PutsPiece most (map opened going.now) i (area piece.now)
        (map area found.old.strips.items) found.old.count (map area found.new.strips.items) found.new.count) }
{
    if i < going.len() && goes_on(&going[i], piece) {
        let place = going[i].place;
        raise(found.strips.as_mut_slice(), place, piece);
        return Ok(place);
    }
    begin(most, found, piece)
}

// Whether the piece goes on with the strip.
fn goes_on(going: &Going, piece: &Rect) -> bool
    ensures { IsTrue result ↔ GoesOn (opened going.now) (area piece.now) }
{
    going.at.x1 == piece.x1 && going.at.x2 == piece.x2 && going.at.y2 == piece.y1
}

// Raises the strip at the place, if it is kept, to the top of the piece on it.
fn raise(strips: &mut [Rect], place: usize, piece: &Rect)
    ensures { IsRaised place (area piece.now) (map area strips.old) (map area strips.new) }
{
    if place < strips.len() && strips[place].y2 == piece.y1 {
        strips[place].y2 = piece.y2;
    }
}

// Keeps the piece as a strip, where there is room, and counts it.
fn begin(most: usize, found: &mut Found, piece: &Rect) -> Result<usize, OutOfMemory>
    ensures { IfOk result (IsBegun most (area piece.now) (map area found.old.strips.items) found.old.count (map area found.new.strips.items) found.new.count) }
{
    let place = found.strips.len();
    if place < most {
        found.strips.push(*piece)?;
    }
    found.count = found.count.saturating_add(1);
    Ok(place)
}
