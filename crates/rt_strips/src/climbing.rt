//! Which strips are climbed from which.
ghost use Rattle.std.specs.Prelude.{◌≡◌, ◌+◌, ◌*◌, ◌/◌, ◌%◌, ◌^◌, ◌<◌, ◌≤◌, IfOk, length, map, bit_or, slice_index, slice_set};
ghost use Rattle.rt_strips.specs.Placed.{placed};
ghost use Rattle.rt_strips.specs.Standing.{StandsOn};
ghost use Rattle.rt_strips.specs.StripsOf.{AreStrips};
ghost use Rattle.rt_strips.specs.Table.{Rows, HasRoom, tells, is_set, AreClimbsOf, IsRowTaken, IsJoined, IsJoinedFor, AreRowsOf};

use crate::contact::stands_on;
use crate::listing::{Strip, Strips};
use crate::meeting::{Meeting, meetings_of};
use rt_base::OutOfMemory;
use std::alloc::Global;
use std::marker::Model;

/// Which strips are climbed from which: a bit for each two strips. Contracts see its rows.
/// (This project's own.)
#[derive(Drop)]
pub struct Climbs {
    count: usize,
    width: usize,
    words: Vec<u64>,
}

impl Model for Climbs {
    ghost Value = { Rows };

    ghost view = { λ c. record { count = c.count; width = c.width; words = c.words.items } };

    ghost invariant = { λ c. HasRoom (record { count = c.count; width = c.width; words = c.words.items }) };
}

impl Climbs {
    /// Which of the strips are climbed from which: strip j is climbed from strip i where a chain of strips, each standing on the one before,
    /// leads from i to j. The one error is a want of memory: n strips take n times n bits. (This project's own.)
    pub fn of(alloc: Global, strips: &Strips) -> Result<Climbs, OutOfMemory>
        requires few { length strips.now.list < 2 ^ 32 }
        requires strips { AreStrips (map placed strips.now.list) }
        ensures { IfOk result (AreClimbsOf (map placed strips.now.list)) }
    {
        let list = strips.list.as_slice();
        let count = list.len();
        let width = count / 64 + 1;
        let words = rows(alloc, list, width)?;
        Ok(Climbs {
            count,
            width,
            words,
        })
    }

    /// Whether strip number `to` is climbed from strip number `from`. It takes no memory.
    pub fn has(&self, from: u32, to: u32) -> bool
        requires lower { from < self.now.count }
        requires upper { to < self.now.count }
        ensures { result ≡ tells self.now from to }
    {
        bit(
            self.words.as_slice(),
            self.width,
            from as usize,
            to as usize,
        )
    }
}

// The bit for strip `from` in the row of strip `to`.
fn bit(words: &[u64], width: usize, from: usize, to: usize) -> bool
    requires lower { from < width * 64 }
    requires upper { to * width + width ≤ length words.now }
    ensures { result ≡ is_set width words.now from to }
{
    let word = words[to * width + from / 64];
    word >> (from % 64) & 1 == 1
}

// The rows of all strips, each of so many words.
fn rows(alloc: Global, strips: &[Strip], width: usize) -> Result<Vec<u64>, OutOfMemory>
    requires few { length strips.now < 2 ^ 32 }
    requires wide { length strips.now < width * 64 }
    requires narrow { width ≤ 2 ^ 27 }
    requires strips { AreStrips (map placed strips.now) }
    ensures { IfOk result (λ words. AreRowsOf (map placed strips.now) width words.items) }
{
    let found = meetings_of(alloc, strips)?;
    let mut words = vec![in alloc; 0u64; strips.len() * width]?;
    for meeting in &found {
        climb(words.as_mut_slice(), width, strips, meeting);
    }
    Ok(words)
}

// Joins the row of the lower strip of a meeting into that of the upper one, and the lower strip itself, if the upper one stands on it.
fn climb(words: &mut [u64], width: usize, strips: &[Strip], meeting: &Meeting)
    requires below { meeting.now.below < length strips.now }
    requires above { meeting.now.above < length strips.now }
    requires order { StandsOn (map placed strips.now) meeting.now.below meeting.now.above → meeting.now.below < meeting.now.above }
    requires wide { length strips.now < width * 64 }
    requires rows { length words.old ≡ length strips.now * width }
    ensures { IsJoinedFor (map placed strips.now) width meeting.now words.old words.new }
{
    if stands_on(&strips[meeting.below], &strips[meeting.above]) {
        join(words, width, meeting.below, meeting.above);
    }
}

// Joins the one row into the other, a later one, and sets the bit of the one.
fn join(words: &mut [u64], width: usize, below: usize, above: usize)
    requires order { below < above }
    requires wide { below < width * 64 }
    requires fits { above * width + width ≤ length words.old }
    ensures { IsJoined width below above words.old words.new }
{
    take_row(words, below * width, above * width, width);
    set_bit(words, above * width + below / 64, below % 64);
}

// Joins so many words from the one place on into those from a later place on.
fn take_row(words: &mut [u64], from: usize, to: usize, width: usize)
    requires apart { from + width ≤ to }
    requires fits { to + width ≤ length words.old }
    ensures { IsRowTaken from to width words.old words.new }
{
    for k in 0..width {
        words[to + k] |= words[from + k];
    }
}

// Sets a bit of a word.
#[tactic(auto, using(std::proofs::lemmas::Nat::one_shl))]
fn set_bit(words: &mut [u64], at: usize, place: usize)
    requires there { at < length words.old }
    requires place { place < 64 }
    ensures { words.new ≡ slice_set words.old at (bit_or (slice_index words.old at) (2 ^ place)) }
{
    words[at] |= 1u64 << place;
}
