//! Which masks are cuts.
ghost use Rattle.std.specs.Prelude.{◌≡◌, MatchBool, MatchOption};
ghost use Rattle.rt_tech.specs.declared.table.Role.TheVariants.{Cut};
ghost use Rattle.rt_view.specs.Shapes.{IsCut};
ghost use Rattle.rt_shapes.specs.Cutting.{IsCutAt};

use rt_tech::{Mask, Role, Tech};

/// Mask number `m` of the table, if it is a cut. It takes no memory.
pub(crate) fn cut_at(tech: &Tech, m: u32) -> Option<&Mask>
    ensures { MatchOption result (¬ IsCut tech.now m) (λ mask. IsCutAt tech.now m mask.now) }
{
    match tech.masks.as_slice().get(m as usize) {
        Some(mask) => { if is_cut(mask) { Some(mask) } else { None } }
        None => None,
    }
}

// Whether the mask is a cut.
fn is_cut(mask: &Mask) -> bool
    ensures { MatchBool result (mask.now.role ≡ Cut) (¬ (mask.now.role ≡ Cut)) }
{
    mask.role == Role::Cut
}
