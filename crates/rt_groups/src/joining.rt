//! Groups of joined items. Each item has a parent, itself or an item before it; where parents lead to one item that is its own parent, items are of one
//! group.
ghost use Rattle.std.specs.Prelude.{◌≡◌, ◌<◌, ◌≤◌, ◌^◌, length, slice_index, slice_set, IfOk, All};
ghost use Rattle.rt_groups.specs.Groups.{IsOfItems, AreGroups};
ghost use Rattle.rt_groups.specs.Parents.{PointDown, AreSingle, AreParentsOf, AreAsBefore, IsRootOf, AreJoined, AreFlat};

use rt_base::{List, OutOfMemory};
use std::alloc::Global;

/// An item for each of `count` items, in order: two items have the same one exactly where the pairs, each taken either way, lead from the one to the
/// other. Both items of each pair are below the count. The one error is a want of memory. (This project's own.)
pub fn groups(alloc: Global, count: usize, pairs: &[(u32, u32)]) -> Result<List<u32>, OutOfMemory>
    requires few { count < 2 ^ 32 }
    requires pairs { All (IsOfItems count) pairs.now }
    ensures { IfOk result (λ groups. AreGroups count pairs.now groups) }
{
    let mut parents = singles(alloc, count)?;
    settle(pairs, parents.as_mut_slice());
    Ok(List::of(parents))
}

// Each item with itself as its parent.
fn singles(alloc: Global, count: usize) -> Result<Vec<u32>, OutOfMemory>
    requires { count < 2 ^ 32 }
    ensures { IfOk result (λ parents. AreSingle count parents.items) }
{
    let mut parents = Vec::new(alloc);
    for i in 0..count {
        parents.push(i as u32)?;
    }
    Ok(parents)
}

// Gives all items that the pairs link one parent.
fn settle(pairs: &[(u32, u32)], parents: &mut [u32])
    requires pairs { All (IsOfItems (length parents.old)) pairs.now }
    requires single { AreSingle (length parents.old) parents.old }
    ensures { AreGroups (length parents.old) pairs.now parents.new }
{
    join_all(pairs, parents);
    flatten(parents);
}

// Joins the items of each pair.
fn join_all(pairs: &[(u32, u32)], parents: &mut [u32])
    requires pairs { All (IsOfItems (length parents.old)) pairs.now }
    requires single { AreSingle (length parents.old) parents.old }
    ensures counted { length parents.new ≡ length parents.old }
    ensures down { PointDown parents.new }
    ensures parents { AreParentsOf pairs.now parents.new }
{
    for pair in pairs {
        join(pair.0, pair.1, parents);
    }
}

// Joins two items: of the items that their parents lead to, the earlier one becomes the parent of the other.
fn join(a: u32, b: u32, parents: &mut [u32])
    requires first { a < length parents.old }
    requires second { b < length parents.old }
    requires down { PointDown parents.old }
    ensures { AreJoined a b parents.old parents.new }
{
    let first = root(a, parents);
    let second = root(b, parents);
    if first < second {
        link(second, first, parents);
    } else {
        link(first, second, parents);
    }
}

// Gives an item that is its own parent another parent, which is that item or one before it.
fn link(high: u32, low: u32, parents: &mut [u32])
    requires there { high < length parents.old }
    requires below { low ≤ high }
    requires own { slice_index parents.old high ≡ high }
    requires down { PointDown parents.old }
    ensures { AreJoined high low parents.old parents.new }
{
    parents[high as usize] = low;
}

// The item that the parents of an item lead to, which is its own parent. Items on the way are brought nearer to it.
fn root(i: u32, parents: &mut [u32]) -> u32
    requires there { i < length parents.old }
    requires down { PointDown parents.old }
    ensures as_before { AreAsBefore parents.old parents.new }
    ensures root { IsRootOf parents.new i result }
{
    let mut at = i;
    while parents[at as usize] != at {
        halve(at as usize, parents);
        at = parents[at as usize];
    }
    at
}

// Gives each item the item that its parents lead to as its parent.
fn flatten(parents: &mut [u32])
    requires { PointDown parents.old }
    ensures as_before { AreAsBefore parents.old parents.new }
    ensures flat { AreFlat (length parents.old) parents.new }
{
    for i in 0..parents.len() {
        halve(i, parents);
    }
}

// Gives the item the parent of its parent.
fn halve(i: usize, parents: &mut [u32])
    requires there { i < length parents.old }
    requires down { PointDown parents.old }
    ensures as_before { AreAsBefore parents.old parents.new }
    ensures set { parents.new ≡ slice_set parents.old i (slice_index parents.old (slice_index parents.old i)) }
{
    let parent = parents[i];
    parents[i] = parents[parent as usize];
}
