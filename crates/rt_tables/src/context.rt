ghost use Rattle.std.specs.Prelude.{length as count_of, ◌≤◌};
ghost use Rattle.rt_tech.specs.declared.limits.TheConstants.{MASK_LIMIT};

use rt_keys::names::Names;
use rt_keys::scale::Scale;
use rt_tech::Mask;

// The masks of a table, by their names and by their numbers, and how its lengths are kept.
#[derive(Drop)]
pub(crate) struct Masks<'a> {
    pub names: &'a Names<'a>,
    pub masks: &'a [Mask],
    pub scale: &'a Scale,
    ghost few: { count_of masks.now ≤ MASK_LIMIT },
}
