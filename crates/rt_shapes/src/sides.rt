//! The upper and the lower mask of each strip of a cut.
ghost use Rattle.std.specs.Prelude.{ℕ, ◌<◌, length, map, IfOk, IfErr, OnOk, MatchBool, MatchOption};
ghost use Rattle.rt_strips.specs.Placed.{placed};
ghost use Rattle.rt_shapes.specs.Sides.{IsBareTable, LacksUpper, HasUpper, AllHaveUpper, LacksLower, IsLowerAt, AllHaveLower, IsLooseRefusal, IsOneOf, IsAlone, IsOnlyOne};
ghost use Rattle.rt_shapes.specs.Sound.{IsBareRefusal};

use crate::bare::covers;
use crate::kinds::cut_at;
use rt_base::{Cell, List};
use rt_strips::Strip;
use rt_tech::Tech;
use rt_view::{NetError, Shape};
use std::alloc::Global;

/// That each strip of a cut is covered by its upper mask, or `CutUpper` with the rectangle of the first strip that isn't. It takes no memory.
pub(crate) fn check_upper(
    strips: &[Strip],
    tech: &Tech,
    table: &[List<Option<Cell>>],
) -> Result<(), NetError>
    requires { IsBareTable (map placed strips.now) table.now }
    ensures covered { OnOk result (AllHaveUpper tech.now (map placed strips.now)) }
    ensures refused { IfErr result (IsBareRefusal tech.now (map placed strips.now)) }
{
    for i in 0..strips.len() {
        if lacks_upper(strips, tech, table, i) {
            return Err(NetError::SourceShape {
                shape: Shape::CutUpper,
                rect: strips[i].at,
            });
        }
    }
    Ok(())
}

// Whether the strip is of a cut whose upper mask doesn't cover it.
fn lacks_upper(strips: &[Strip], tech: &Tech, table: &[List<Option<Cell>>], i: usize) -> bool
    requires table { IsBareTable (map placed strips.now) table.now }
    requires strip { i < length strips.now }
    ensures { MatchBool result (LacksUpper tech.now (map placed strips.now) i) (HasUpper tech.now (map placed strips.now) i) }
{
    match cut_at(tech, strips[i].mask) {
        Some(mask) => !covers(strips, table, mask.upper, i),
        None => false,
    }
}

/// For each strip of a cut the number of the one lower mask that covers it, and 0 for every other strip. `CutLower` with the rectangle of the first strip
/// that none covers, or several do; `OutOfMemory` where memory is wanted.
pub(crate) fn lower_masks(
    alloc: Global,
    strips: &[Strip],
    tech: &Tech,
    table: &[List<Option<Cell>>],
) -> Result<List<u32>, NetError>
    requires { IsBareTable (map placed strips.now) table.now }
    ensures lowers { IfOk result (AllHaveLower tech.now (map placed strips.now)) }
    ensures refused { IfErr result (IsLooseRefusal tech.now (map placed strips.now)) }
{
    let mut lowers = List::new(alloc);
    for i in 0..strips.len() {
        match lower_of(strips, tech, table, i) {
            Some(lower) => lowers.push(lower)?,
            None => {
                return Err(NetError::SourceShape {
                    shape: Shape::CutLower,
                    rect: strips[i].at,
                });
            }
        }
    }
    Ok(lowers)
}

// Of a strip of a cut the number of the one lower mask that covers it, if there is one; 0 of another strip.
fn lower_of(strips: &[Strip], tech: &Tech, table: &[List<Option<Cell>>], i: usize) -> Option<u32>
    requires table { IsBareTable (map placed strips.now) table.now }
    requires strip { i < length strips.now }
    ensures { MatchOption result (LacksLower tech.now (map placed strips.now) i) (IsLowerAt tech.now (map placed strips.now) i) }
{
    match cut_at(tech, strips[i].mask) {
        Some(mask) => only_one(strips, table, i, mask.lowers.as_slice()),
        None => Some(0),
    }
}

// The one of the masks that covers the strip, if there is exactly one.
fn only_one(strips: &[Strip], table: &[List<Option<Cell>>], i: usize, masks: &[u32]) -> Option<u32>
    requires table { IsBareTable (map placed strips.now) table.now }
    requires strip { i < length strips.now }
    ensures { MatchOption result ((l : ℕ) → ¬ IsOnlyOne (map placed strips.now) i masks.now l) (IsOnlyOne (map placed strips.now) i masks.now) }
{
    match one_of(strips, table, i, masks) {
        Some(m) => {
            if is_alone(strips, table, i, masks, m) {
                Some(m)
            } else {
                None
            }
        }
        None => None,
    }
}

// The first of the masks that covers the strip, if there is one.
fn one_of(strips: &[Strip], table: &[List<Option<Cell>>], i: usize, masks: &[u32]) -> Option<u32>
    requires table { IsBareTable (map placed strips.now) table.now }
    requires strip { i < length strips.now }
    ensures { MatchOption result ((l : ℕ) → ¬ IsOneOf (map placed strips.now) i masks.now l) (IsOneOf (map placed strips.now) i masks.now) }
{
    for k in 0..masks.len() {
        if covers(strips, table, masks[k], i) {
            return Some(masks[k]);
        }
    }
    None
}

// Whether no mask of the list but number `m` covers the strip.
fn is_alone(strips: &[Strip], table: &[List<Option<Cell>>], i: usize, masks: &[u32], m: u32) -> bool
    requires table { IsBareTable (map placed strips.now) table.now }
    requires strip { i < length strips.now }
    ensures { MatchBool result (IsAlone (map placed strips.now) i masks.now m) (¬ IsAlone (map placed strips.now) i masks.now m) }
{
    for k in 0..masks.len() {
        if masks[k] != m && covers(strips, table, masks[k], i) {
            return false;
        }
    }
    true
}
