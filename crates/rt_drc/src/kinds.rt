//! Which masks are cuts, and which masks lie below them.
ghost use Rattle.std.specs.Prelude.{◌≡◌, ◌==◌};
ghost use Rattle.std.specs.List.{list_any};
ghost use Rattle.rt_tech.specs.declared.table.Role.TheVariants.{Cut};
ghost use Rattle.rt_tech.specs.Rules as spec;
ghost use Rattle.rt_tech.specs.Words.{same_role};

use rt_tech::{Mask, Role};

/// Whether the mask is a cut.
pub(crate) fn is_cut(mask: &Mask) -> bool
    ensures { result ≡ same_role mask.now.role Cut }
{
    mask.role == Role::Cut
}

/// Whether mask number `cut` is a cut, and mask number `m` one of its lower masks.
pub(crate) fn has_lower(masks: &[Mask], cut: u32, m: u32) -> bool
    ensures { result ≡ spec.has_lower masks.now cut m }
{
    match masks.get(cut as usize) {
        Some(mask) => is_lower_of(mask, m),
        None => false,
    }
}

// Whether the mask is a cut, and mask number `m` one of its lower masks.
fn is_lower_of(mask: &Mask, m: u32) -> bool
    ensures { result ≡ spec.is_lower_of mask.now m }
{
    is_cut(mask) && contains(mask.lowers.as_slice(), m)
}

// Whether the number is one of these.
fn contains(numbers: &[u32], number: u32) -> bool
    ensures { result ≡ list_any (λ n. number == n) numbers.now }
{
    numbers.iter().any(|n| number == *n)
}
