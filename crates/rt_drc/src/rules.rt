//! The check of a view, rule by rule in the table's order.
ghost use Rattle.std.specs.Prelude.{pos, OnOk, IfErr};
ghost use Rattle.rt_rules.specs.Pairs.{HasMeasuredPairs};
ghost use Rattle.rt_rules.specs.Rules.{BreaksNoRule, IsBreachOf};
ghost use Rattle.rt_tech.specs.Tech.{IsMeasured};
ghost use Rattle.rt_view.specs.View.{IsView};
ghost use Rattle.rt_drc.specs.Rows.{cells_of};

use crate::masks::check_masks;
use crate::pairs::check_pairs;
use rt_tech::{RuleError, Tech};
use rt_view::View;
use std::alloc::Global;

/// Whether a layout breaks no rule of its table, or the first rule that it breaks, with two cells that show it and the number found. The order is that
/// of the table: mask by mask the size of a cut or the width of another mask, then its space; then the enclosures; then the distances. All is in the units
/// of the table, source database units where a source is checked. `OutOfMemory` comes for want of memory alone, which is also said of strips that 32 bits
/// don't number. (This project's own.)
pub fn check_rules(alloc: Global, view: &View, tech: &Tech) -> Result<(), RuleError>
    requires view { IsView tech.now view.now }
    requires table { IsMeasured tech.now }
    requires pairs { HasMeasuredPairs tech.now }
    ensures kept { OnOk result (BreaksNoRule (pos 1) tech.now (cells_of view.now.strips.list)) }
    ensures broken { IfErr result (IsBreachOf (pos 1) tech.now (cells_of view.now.strips.list)) }
{
    let strips = view.strips.list.as_slice();
    if let Err(error) = check_masks(alloc, strips, view.strips.masks + 1, tech) {
        return Err(error);
    }
    check_pairs(alloc, strips, view.lowers.as_slice(), tech)
}
