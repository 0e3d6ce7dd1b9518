//! The check of the rules of masks, mask by mask. How a breach is found isn't known here.
ghost use Rattle.std.specs.Prelude.{◌≡◌, ◌<◌, ◌≤◌, ◌^◌, length, map, OnOk, IfErr};
ghost use Rattle.rt_rules.specs.Cuts.{KeepsSize};
ghost use Rattle.rt_rules.specs.Rules.{mask_rules};
ghost use Rattle.rt_rules.specs.Space.{KeepsSpace};
ghost use Rattle.rt_rules.specs.Width.{KeepsWidth};
ghost use Rattle.rt_strips.specs.Placed.{placed};
ghost use Rattle.rt_strips.specs.StripsOf.{AreStripsOf};
ghost use Rattle.rt_tech.specs.declared.rules.RuleName.TheVariants.{Width, Space, Size};
ghost use Rattle.rt_tech.specs.declared.table.Role.TheVariants.{Cut};
ghost use Rattle.rt_tech.specs.Tech.{IsMeasured, IsMeasuredMask, mask_count};
ghost use Rattle.rt_drc.specs.InOrder.{KeepAll, IsRefusal, IsBrokenBy};
ghost use Rattle.rt_drc.specs.OneMask.{KeepsShape, ShowsShape, KeepsBoth, IsMaskRefusal};
ghost use Rattle.rt_drc.specs.Rows.{cells_of, turned_cells_of, AreRowsOf, ShowsWidth, ShowsSpace};
ghost use Rattle.rt_drc.specs.SoundCuts.{CutsAreStrips};
ghost use Rattle.rt_drc.specs.Squares.{AreOwnPieces, ShowsSize};

use crate::answer::answer;
use crate::axes::axes_of;
use crate::kinds::is_cut;
use crate::rows::Rows;
use crate::sizes::size_breach;
use crate::space::space_breach;
use crate::width::width_breach;
use rt_strips::Strip;
use rt_tech::{Mask, RuleError, RuleName, Tech};
use std::alloc::Global;

/// Whether the strips of so many masks keep the rules of the table's masks, or the first one that they break: of each mask that of its shapes, then its
/// space. `OutOfMemory` is also said of 2^32 strips along an axis.
pub(crate) fn check_masks(
    alloc: Global,
    strips: &[Strip],
    masks: u32,
    tech: &Tech,
) -> Result<(), RuleError>
    requires strips { AreStripsOf (cells_of strips.now) masks (map placed strips.now) }
    requires masks { mask_count tech.now ≤ masks }
    requires table { IsMeasured tech.now }
    requires cuts { CutsAreStrips tech.now strips.now }
    ensures few { OnOk result (length strips.now < 2 ^ 32) }
    ensures kept { OnOk result (KeepAll tech.now (cells_of strips.now) (mask_rules 0 tech.now.masks)) }
    ensures broken { IfErr result (IsRefusal tech.now (cells_of strips.now) (mask_rules 0 tech.now.masks)) }
{
    let Ok(axes) = axes_of(alloc, strips, masks) else {
        return Err(RuleError::OutOfMemory);
    };
    let rows = Rows {
        strips,
        seams: axes.seams.as_slice(),
    };
    let columns = Rows {
        strips: axes.columns.as_slice(),
        seams: axes.column_seams.as_slice(),
    };
    check_each(alloc, &rows, &columns, masks, tech)
}

// The same of rows and columns, mask by mask.
fn check_each(
    alloc: Global,
    rows: &Rows<'_>,
    columns: &Rows<'_>,
    masks: u32,
    tech: &Tech,
) -> Result<(), RuleError>
    requires rows { AreRowsOf (cells_of rows.now.strips.now) masks rows.now.strips.now rows.now.seams.now }
    requires columns { AreRowsOf (turned_cells_of rows.now.strips.now) masks columns.now.strips.now columns.now.seams.now }
    requires masks { mask_count tech.now ≤ masks }
    requires table { IsMeasured tech.now }
    requires cuts { CutsAreStrips tech.now rows.now.strips.now }
    ensures kept { OnOk result (KeepAll tech.now (cells_of rows.now.strips.now) (mask_rules 0 tech.now.masks)) }
    ensures broken { IfErr result (IsRefusal tech.now (cells_of rows.now.strips.now) (mask_rules 0 tech.now.masks)) }
{
    for (m, mask) in tech.masks.as_slice().iter().enumerate() {
        if let Err(error) = check_mask(alloc, rows, columns, masks, m as u32, mask) {
            return Err(error);
        }
    }
    Ok(())
}

// The same for one mask of a number: the rule of its shapes, then its space.
fn check_mask(
    alloc: Global,
    rows: &Rows<'_>,
    columns: &Rows<'_>,
    masks: u32,
    m: u32,
    mask: &Mask,
) -> Result<(), RuleError>
    requires rows { AreRowsOf (cells_of rows.now.strips.now) masks rows.now.strips.now rows.now.seams.now }
    requires columns { AreRowsOf (turned_cells_of rows.now.strips.now) masks columns.now.strips.now columns.now.seams.now }
    requires mask { m < masks }
    requires table { IsMeasuredMask mask.now }
    requires cut { mask.now.role ≡ Cut → AreOwnPieces m rows.now.strips.now }
    ensures kept { OnOk result (KeepsBoth mask.now (cells_of rows.now.strips.now m)) }
    ensures broken { IfErr result (IsMaskRefusal m mask.now (cells_of rows.now.strips.now m)) }
{
    check_shape(rows, columns, masks, m, mask)?;
    check_space(alloc, rows, columns, masks, m, mask)
}

// Whether a mask keeps the rule of its shapes: a cut its size, another mask its width.
fn check_shape(
    rows: &Rows<'_>,
    columns: &Rows<'_>,
    masks: u32,
    m: u32,
    mask: &Mask,
) -> Result<(), RuleError>
    requires rows { AreRowsOf (cells_of rows.now.strips.now) masks rows.now.strips.now rows.now.seams.now }
    requires columns { AreRowsOf (turned_cells_of rows.now.strips.now) masks columns.now.strips.now columns.now.seams.now }
    requires mask { m < masks }
    requires table { IsMeasuredMask mask.now }
    requires cut { mask.now.role ≡ Cut → AreOwnPieces m rows.now.strips.now }
    ensures kept { OnOk result (KeepsShape mask.now.role mask.now.width (cells_of rows.now.strips.now m)) }
    ensures broken { IfErr result (IsMaskRefusal m mask.now (cells_of rows.now.strips.now m)) }
{
    if is_cut(mask) {
        check_size(rows.strips, m, mask)
    } else {
        check_width(rows, columns, masks, m, mask)
    }
}

// Whether a cut keeps its size.
fn check_size(strips: &[Strip], m: u32, mask: &Mask) -> Result<(), RuleError>
    requires { AreOwnPieces m strips.now }
    ensures kept { OnOk result (KeepsSize mask.now.width (cells_of strips.now m)) }
    ensures broken { IfErr result (IsBrokenBy (Size m) mask.now.width (ShowsSize mask.now.width (cells_of strips.now m))) }
{
    let found = size_breach(strips, m, &mask.width);
    answer(RuleName::Size(m), &found, &mask.width)
}

// Whether a mask keeps its width.
fn check_width(
    rows: &Rows<'_>,
    columns: &Rows<'_>,
    masks: u32,
    m: u32,
    mask: &Mask,
) -> Result<(), RuleError>
    requires rows { AreRowsOf (cells_of rows.now.strips.now) masks rows.now.strips.now rows.now.seams.now }
    requires columns { AreRowsOf (turned_cells_of rows.now.strips.now) masks columns.now.strips.now columns.now.seams.now }
    requires mask { m < masks }
    requires table { IsMeasuredMask mask.now }
    ensures kept { OnOk result (KeepsWidth mask.now.width (cells_of rows.now.strips.now m)) }
    ensures broken { IfErr result (IsBrokenBy (Width m) mask.now.width (ShowsWidth mask.now.width (cells_of rows.now.strips.now m))) }
{
    let found = width_breach(rows, columns, masks, m, mask.width);
    answer(RuleName::Width(m), &found, &mask.width)
}

// Whether a mask that keeps the rule of its shapes keeps its space.
fn check_space(
    alloc: Global,
    rows: &Rows<'_>,
    columns: &Rows<'_>,
    masks: u32,
    m: u32,
    mask: &Mask,
) -> Result<(), RuleError>
    requires rows { AreRowsOf (cells_of rows.now.strips.now) masks rows.now.strips.now rows.now.seams.now }
    requires columns { AreRowsOf (turned_cells_of rows.now.strips.now) masks columns.now.strips.now columns.now.seams.now }
    requires mask { m < masks }
    requires table { IsMeasuredMask mask.now }
    requires shape { KeepsShape mask.now.role mask.now.width (cells_of rows.now.strips.now m) }
    ensures kept { OnOk result (KeepsBoth mask.now (cells_of rows.now.strips.now m)) }
    ensures broken { IfErr result (IsMaskRefusal m mask.now (cells_of rows.now.strips.now m)) }
{
    let Ok(found) = space_breach(alloc, rows, columns, masks, m, mask.space) else {
        return Err(RuleError::OutOfMemory);
    };
    answer(RuleName::Space(m), &found, &mask.space)
}
