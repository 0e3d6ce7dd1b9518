//! Which strips of a mask a rule counts.
ghost use Rattle.std.specs.Prelude.{◌≡◌, ◌<◌, length, map, slice_index, IfSome, MatchBool};
ghost use Rattle.rt_strips.specs.Placed.{placed};
ghost use Rattle.rt_drc.specs.Counting.{IsCounted};

use rt_strips::Strip;

/// The strips of a mask that a rule counts: all of them, or, of a cut, those that lie in one lower mask. (This project's own.)
#[derive(Clone, Copy, Drop)]
pub struct Counted<'a> {
    /// The number of the mask.
    pub mask: u32,
    /// The number of the lower mask, if only what lies in it counts.
    pub lower: Option<u32>,
    /// For each strip of a cut the number of its lower mask.
    pub lowers: &'a [u32],
}

/// Whether strip i counts.
pub(crate) fn counts(strips: &[Strip], i: usize, counted: &Counted<'_>) -> bool
    requires strip { i < length strips.now }
    requires lowers { length counted.now.lowers.now ≡ length strips.now }
    ensures { MatchBool result (IsCounted counted.now (map placed strips.now) i) (¬ IsCounted counted.now (map placed strips.now) i) }
{
    if strips[i].mask != counted.mask {
        return false;
    }
    has_lower(i, counted)
}

// Whether strip i has the lower mask, if one is asked for.
fn has_lower(i: usize, counted: &Counted<'_>) -> bool
    requires { i < length counted.now.lowers.now }
    ensures { MatchBool result (IfSome counted.now.lower (λ l. slice_index counted.now.lowers.now i ≡ l)) (¬ IfSome counted.now.lower (λ l. slice_index counted.now.lowers.now i ≡ l)) }
{
    match counted.lower {
        Some(lower) => counted.lowers[i] == lower,
        None => true,
    }
}
