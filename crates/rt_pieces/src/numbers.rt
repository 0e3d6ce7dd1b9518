//! Numbers of strips by which the pieces of a mask are told apart: each strip is given the number of a strip of its piece, and the numbers are
//! lowered along the seams until the strips of every seam have one number.
ghost use Rattle.std.specs.Prelude.{◌≡◌, ◌<◌, ◌≤◌, ◌^◌, length, map, slice_index, IfOk, sum, IsFalse, All, MatchBool};
ghost use Rattle.rt_base.specs.Plane.{area};
ghost use Rattle.rt_family.specs.Strips.{ShareColumn};
ghost use Rattle.rt_strips.specs.Placed.{placed};
ghost use Rattle.rt_strips.specs.Standing.{IsStrip};
ghost use Rattle.rt_strips.specs.Seams.{IsSeam, AreSeamsOf};
ghost use Rattle.rt_pieces.specs.Members.{IsOf, AreOfOnePiece};
ghost use Rattle.rt_pieces.specs.Numbering.{AreOwnNumbers, AreNumbersOfPieces, AreLinks, AreEnds, Stands, IsJoined, Lowered};

use rt_base::{OutOfMemory, Rect};
use rt_strips::{Seam, Strip};
use std::alloc::Global;

/// The two strips at which links from the strips of a seam end.
#[derive(Clone, Copy, Drop)]
struct Ends {
    /// The lower number.
    low: u32,
    /// The higher number.
    high: u32,
}

/// The numbers from 0 up to, and without, the count. The one error is a want of memory.
pub fn own_numbers(alloc: Global, count: usize) -> Result<Vec<u32>, OutOfMemory>
    requires { count < 2 ^ 32 }
    ensures { IfOk result (λ numbers. AreOwnNumbers count numbers.items) }
{
    let mut numbers = Vec::new(alloc);
    for i in 0..count {
        numbers.push(i as u32)?;
    }
    Ok(numbers)
}

/// A number for each strip: strips of mask number `m` have one number exactly where they are of one piece. The one error is a want of memory.
pub fn piece_numbers(
    alloc: Global,
    strips: &[Strip],
    seams: &[Seam],
    m: u32,
) -> Result<Vec<u32>, OutOfMemory>
    requires few { length strips.now < 2 ^ 32 }
    requires seams { AreSeamsOf (map placed strips.now) seams.now }
    ensures { IfOk result (λ numbers. AreNumbersOfPieces m (map placed strips.now) numbers.items) }
{
    let mut links = own_numbers(alloc, strips.len())?;
    lower_all(strips, seams, m, links.as_mut_slice());
    Ok(links)
}

// Lowers the numbers until the strips of every seam have one.
fn lower_all(strips: &[Strip], seams: &[Seam], m: u32, links: &mut [u32])
    requires few { length strips.now < 2 ^ 32 }
    requires seams { AreSeamsOf (map placed strips.now) seams.now }
    requires links { AreLinks m (map placed strips.now) links.old }
    ensures links { AreLinks m (map placed strips.now) links.new }
    ensures joined { All (IsJoined m (map placed strips.now) links.new) seams.now }
{
    let mut changed = true;
    while changed {
        shorten(strips, m, links);
        changed = lower_once(strips, seams, m, links);
    }
}

// Gives each strip the number of the strip whose number it has.
fn shorten(strips: &[Strip], m: u32, links: &mut [u32])
    requires few { length strips.now < 2 ^ 32 }
    requires links { AreLinks m (map placed strips.now) links.old }
    ensures links { AreLinks m (map placed strips.now) links.new }
    ensures lowered { sum links.new ≤ sum links.old }
{
    for i in 0..links.len() {
        let to = links[links[i] as usize];
        lower(strips, m, i as u32, to, links);
    }
}

// Lowers the numbers along each seam once, and tells whether one changed. Where none did, the strips of every seam have one number.
fn lower_once(strips: &[Strip], seams: &[Seam], m: u32, links: &mut [u32]) -> bool
    requires seams { AreSeamsOf (map placed strips.now) seams.now }
    requires links { AreLinks m (map placed strips.now) links.old }
    ensures links { AreLinks m (map placed strips.now) links.new }
    ensures lowered { Lowered result links.old links.new }
    ensures joined { IsFalse result → All (IsJoined m (map placed strips.now) links.new) seams.now }
{
    let mut changed = false;
    for seam in seams {
        if lower_seam(strips, m, seam, links) {
            changed = true;
        }
    }
    changed
}

// Lowers the numbers of the strips of a seam, if it is one of the mask over a common column, and tells whether one changed.
fn lower_seam(strips: &[Strip], m: u32, seam: &Seam, links: &mut [u32]) -> bool
    requires seam { IsSeam (map placed strips.now) seam.now.below seam.now.above }
    requires links { AreLinks m (map placed strips.now) links.old }
    ensures links { AreLinks m (map placed strips.now) links.new }
    ensures lowered { Lowered result links.old links.new }
    ensures joined { IsFalse result → IsJoined m (map placed strips.now) links.new seam.now }
{
    if stands(strips, m, seam) {
        lower_at(strips, m, seam, links)
    } else {
        false
    }
}

/// Whether at the seam a strip of mask number `m` stands on another. It takes no memory.
pub fn stands(strips: &[Strip], m: u32, seam: &Seam) -> bool
    requires { IsSeam (map placed strips.now) seam.now.below seam.now.above }
    ensures { MatchBool result (Stands m (map placed strips.now) seam.now.below seam.now.above) (¬ Stands m (map placed strips.now) seam.now.below seam.now.above) }
{
    let below = &strips[seam.below as usize];
    let above = &strips[seam.above as usize];
    if below.mask != m {
        return false;
    }
    share_column(&below.at, &above.at)
}

// Whether the two rectangles have a common column.
fn share_column(a: &Rect, b: &Rect) -> bool
    ensures { MatchBool result (ShareColumn (area a.now) (area b.now)) (¬ ShareColumn (area a.now) (area b.now)) }
{
    a.x1 < b.x2 && b.x1 < a.x2
}

// Lowers the numbers of the two strips of a seam, and that of the higher one of the two strips at which their links end, to the lower one of these;
// tells whether a number changed.
fn lower_at(strips: &[Strip], m: u32, seam: &Seam, links: &mut [u32]) -> bool
    requires stands { Stands m (map placed strips.now) seam.now.below seam.now.above }
    requires links { AreLinks m (map placed strips.now) links.old }
    ensures links { AreLinks m (map placed strips.now) links.new }
    ensures lowered { Lowered result links.old links.new }
    ensures joined { IsFalse result → slice_index links.new seam.now.below ≡ slice_index links.new seam.now.above }
{
    let ends = ends_of(strips, m, seam, links);
    let end = lower(strips, m, ends.high, ends.low, links);
    let first = lower(strips, m, seam.below, ends.low, links);
    let second = lower(strips, m, seam.above, ends.low, links);
    end || first || second
}

// The two strips at which the links from the strips of a seam end.
fn ends_of(strips: &[Strip], m: u32, seam: &Seam, links: &[u32]) -> Ends
    requires stands { Stands m (map placed strips.now) seam.now.below seam.now.above }
    requires links { AreLinks m (map placed strips.now) links.now }
    ensures { AreEnds m (map placed strips.now) links.now seam.now result }
{
    let below = end_of(strips, m, seam.below, links);
    let above = end_of(strips, m, seam.above, links);
    if below < above {
        Ends {
            low: below,
            high: above,
        }
    } else {
        Ends {
            low: above,
            high: below,
        }
    }
}

// The strip at which the links from a strip end: its own number is that of its place.
fn end_of(strips: &[Strip], m: u32, i: u32, links: &[u32]) -> u32
    requires strip { IsOf m (map placed strips.now) i }
    requires links { AreLinks m (map placed strips.now) links.now }
    ensures piece { AreOfOnePiece m (map placed strips.now) i result }
    ensures down { result ≤ slice_index links.now i }
{
    let mut end = links[i as usize];
    while links[end as usize] != end {
        end = links[end as usize];
    }
    end
}

// Gives strip i the number `to`, that of a strip of its piece, if that is lower than the number that it has; tells whether it did.
fn lower(strips: &[Strip], m: u32, i: u32, to: u32, links: &mut [u32]) -> bool
    requires strip { IsStrip (map placed strips.now) i }
    requires piece { IsOf m (map placed strips.now) i → AreOfOnePiece m (map placed strips.now) i to }
    requires links { AreLinks m (map placed strips.now) links.old }
    ensures links { AreLinks m (map placed strips.now) links.new }
    ensures lowered { Lowered result links.old links.new }
    ensures below { slice_index links.new i ≤ to }
{
    if to < links[i as usize] {
        links[i as usize] = to;
        true
    } else {
        false
    }
}
