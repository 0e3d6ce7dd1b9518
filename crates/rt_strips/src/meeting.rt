//! Where the top of a strip meets the bottom of another of its mask, by a walk along both.
ghost use Rattle.std.specs.Prelude.{◌≡◌, ◌≤◌, AllPairs, IfOk, OnOk, IsPermutation, MatchBool, map};
ghost use Rattle.rt_strips.specs.Placed.{placed};
ghost use Rattle.rt_strips.specs.StripsOf.{AreStrips};
ghost use Rattle.rt_strips.specs.Meetings.{edge_of, AreEdgesOf, IsEdgeBefore, EndsNoLater, Meet, IsNoted, AreMeetings, AreMeetingsOf};
ghost use Rattle.rt_strips.specs.Edges.{IsSortedByPlace};

use crate::listing::Strip;
use rt_base::OutOfMemory;
use std::alloc::Global;

/// The top or the bottom of a strip.
#[derive(Clone, Copy, Drop)]
pub enum Side {
    /// The row above its highest one.
    Top,
    /// Its lowest row.
    Bottom,
}

/// The top or the bottom of a strip, with the strip's number.
#[derive(Clone, Copy, Drop)]
pub struct Edge {
    /// The strip's mask.
    pub mask: u32,
    /// The row.
    pub height: i64,
    /// The strip's first column.
    pub left: i64,
    /// The column after its last one.
    pub right: i64,
    /// The strip's number.
    pub strip: usize,
}

/// The numbers of a strip that ends in a row and of one that begins there, of one mask, with no column between them.
#[derive(Clone, Copy, Drop)]
pub struct Meeting {
    /// The strip that ends.
    pub below: usize,
    /// The strip that begins.
    pub above: usize,
}

// The meetings of the tops of strips with bottoms, in order of the upper strips. The one error is a want of memory.
pub(crate) fn meetings_of(alloc: Global, strips: &[Strip]) -> Result<Vec<Meeting>, OutOfMemory>
    requires { AreStrips (map placed strips.now) }
    ensures { IfOk result (λ found. AreMeetingsOf (map placed strips.now) found.items) }
{
    let mut ends = edges(alloc, strips, Side::Top)?;
    let begins = edges(alloc, strips, Side::Bottom)?;
    sort_by_place(alloc, ends.as_mut_slice())?;
    meetings(alloc, ends.as_slice(), begins.as_slice())
}

// The tops or the bottoms of the strips, by their numbers.
fn edges(alloc: Global, strips: &[Strip], side: Side) -> Result<Vec<Edge>, OutOfMemory>
    ensures { IfOk result (λ edges. AreEdgesOf side (map placed strips.now) edges.items) }
{
    let mut found = Vec::new(alloc);
    for i in 0..strips.len() {
        found.push(edge_at(&strips[i], i, side))?;
    }
    Ok(found)
}

// The strip's top or bottom.
fn edge_at(strip: &Strip, number: usize, side: Side) -> Edge
    ensures { result ≡ edge_of side (placed strip.now) number }
{
    let height = match side {
        Side::Top => strip.at.y2,
        Side::Bottom => strip.at.y1,
    };
    Edge {
        mask: strip.mask,
        height,
        left: strip.at.x1,
        right: strip.at.x2,
        strip: number,
    }
}

// Puts the edges in order of mask, then height, then left end.
fn sort_by_place(alloc: Global, edges: &mut [Edge]) -> Result<(), OutOfMemory>
    ensures same { IsPermutation edges.old edges.new }
    ensures sorted { OnOk result (IsSortedByPlace edges.new) }
{
    edges.sort_by_key(alloc, |edge| (edge.mask, edge.height, edge.left))?;
    Ok(())
}

// The meetings of edges of two lists, each in order, by a walk along both.
fn meetings(alloc: Global, ends: &[Edge], begins: &[Edge]) -> Result<Vec<Meeting>, OutOfMemory>
    requires ends { AllPairs IsEdgeBefore ends.now }
    requires begins { AllPairs IsEdgeBefore begins.now }
    requires numbered { AllPairs (λ a b. a.strip ≤ b.strip) begins.now }
    ensures { IfOk result (λ found. AreMeetings ends.now begins.now found.items) }
{
    let mut found = Vec::new(alloc);
    let mut i = 0;
    let mut j = 0;
    while i < ends.len() && j < begins.len() {
        let end = &ends[i];
        let begin = &begins[j];
        note(&mut found, end, begin)?;
        if ends_no_later(end, begin) {
            i += 1;
        } else {
            j += 1;
        }
    }
    Ok(found)
}

// Adds the meeting of the two edges, if they meet.
fn note(found: &mut Vec<Meeting>, end: &Edge, begin: &Edge) -> Result<(), OutOfMemory>
    ensures { OnOk result (IsNoted end.now begin.now found.old.items found.new.items) }
{
    if meet(end, begin) {
        found.push(Meeting {
            below: end.strip,
            above: begin.strip,
        })?;
    }
    Ok(())
}

// Whether the edges are of one mask and height, and no column lies between them.
fn meet(a: &Edge, b: &Edge) -> bool
    ensures { MatchBool result (Meet a.now b.now) (¬ Meet a.now b.now) }
{
    if a.mask != b.mask || a.height != b.height {
        return false;
    }
    if b.right < a.left || a.right < b.left {
        return false;
    }
    true
}

// Whether the first edge ends before the second, or with it: by mask, then height, then right end.
#[tactic(auto, using(crate::proofs::Edges::ending))]
fn ends_no_later(a: &Edge, b: &Edge) -> bool
    ensures { MatchBool result (EndsNoLater a.now b.now) (EndsNoLater b.now a.now) }
{
    if a.mask < b.mask {
        return true;
    }
    if b.mask < a.mask {
        return false;
    }
    if a.height < b.height {
        return true;
    }
    if b.height < a.height {
        return false;
    }
    if a.right <= b.right {
        return true;
    }
    false
}
