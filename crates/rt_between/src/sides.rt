//! Which strips are cuts, which lie in a lower mask, and which are on the two sides of a distance.
ghost use Rattle.std.specs.Prelude.{◌≡◌, IfSome, MatchBool, slice_index};
ghost use Rattle.rt_strips.specs.Placed.{mask_of};
ghost use Rattle.rt_tech.specs.declared.table.Role.TheVariants.{Cut};
ghost use Rattle.rt_tech.specs.Rules.{is_role_at};
ghost use Rattle.rt_tech.specs.Words.{same_role};
ghost use Rattle.rt_template.specs.Between as spec;
ghost use Rattle.rt_template.specs.Between.{IsStripOf, IsCutStrip, IsStripIn, AreKeptApart, AreOnTwoSides};
ghost use Rattle.rt_view.specs.Job.{strips_of};

use rt_tech::{Apart, Mask, Role};
use rt_view::Job;

/// Whether there is a strip of that number, and its mask is a cut. (This project's own.)
pub fn is_cut_strip(job: &Job, i: u32) -> bool
    ensures { MatchBool result (IsCutStrip job.now i) (¬ IsCutStrip job.now i) }
{
    (i as usize) < job.view.strips.list.as_slice().len() && is_of_cut(job, i)
}

/// Whether the mask of a strip is a cut; of a number without a strip whether mask 0 is one. (This project's own.)
pub fn is_of_cut(job: &Job, i: u32) -> bool
    ensures { result ≡ spec.is_of_cut job.now i }
{
    is_cut_at(job.source.masks.as_slice(), mask_at(job, i))
}

// The mask of strip i; 0 where there is no such strip.
fn mask_at(job: &Job, i: u32) -> u32
    ensures { result ≡ mask_of (strips_of job.now) i }
{
    match job.view.strips.list.as_slice().get(i as usize) {
        Some(strip) => strip.mask,
        None => 0,
    }
}

// Whether the mask of that number is a cut.
fn is_cut_at(masks: &[Mask], n: u32) -> bool
    ensures { result ≡ is_role_at Cut masks.now n }
{
    match masks.get(n as usize) {
        Some(mask) => is_cut(&mask.role),
        None => false,
    }
}

// Whether the role is that of cuts.
pub(crate) fn is_cut(role: &Role) -> bool
    ensures { result ≡ same_role role.now Cut }
{
    match *role {
        Role::Cut => true,
        _ => false,
    }
}

/// Whether two strips are on the two sides of a distance of the source's table, by its number from 0, in one order or the other. (This project's
/// own.)
pub fn are_on_two_sides(job: &Job, q: u32, i: u32, j: u32) -> bool
    ensures { MatchBool result (AreOnTwoSides job.now q i j) (¬ AreOnTwoSides job.now q i j) }
{
    match job.source.aparts.as_slice().get(q as usize) {
        Some(apart) => are_kept_apart(job, apart, i, j) || are_kept_apart(job, apart, j, i),
        None => false,
    }
}

// Whether strip i is on the distance's first side, and strip j on its second one.
fn are_kept_apart(job: &Job, apart: &Apart, i: u32, j: u32) -> bool
    ensures { MatchBool result (AreKeptApart job.now apart.now i j) (¬ AreKeptApart job.now apart.now i j) }
{
    is_strip_in(job, apart.a, &apart.on, i) && is_strip_of(job, apart.b, j)
}

// Whether strip i is of the mask, and where a lower mask is named, lies in that.
pub(crate) fn is_strip_in(job: &Job, mask: u32, lower: &Option<u32>, i: u32) -> bool
    ensures { MatchBool result (IsStripIn job.now mask lower.now i) (¬ IsStripIn job.now mask lower.now i) }
{
    is_strip_of(job, mask, i) && lies_in(job, lower, i)
}

// Whether strip i is of the mask.
pub(crate) fn is_strip_of(job: &Job, mask: u32, i: u32) -> bool
    ensures { MatchBool result (IsStripOf job.now mask i) (¬ IsStripOf job.now mask i) }
{
    (i as usize) < job.view.strips.list.as_slice().len() && mask_at(job, i) == mask
}

// Whether strip i lies in the lower mask, where one is named.
fn lies_in(job: &Job, lower: &Option<u32>, i: u32) -> bool
    ensures { MatchBool result
        (IfSome lower.now (λ l. slice_index job.now.view.lowers i ≡ l))
        (¬ IfSome lower.now (λ l. slice_index job.now.view.lowers i ≡ l)) }
{
    match lower {
        Some(mask) => lower_at(job, i) == *mask,
        None => true,
    }
}

// The lower mask of strip i; 0 where there is no such strip.
fn lower_at(job: &Job, i: u32) -> u32
    ensures { result ≡ slice_index job.now.view.lowers i }
{
    match job.view.lowers.as_slice().get(i as usize) {
        Some(mask) => *mask,
        None => 0,
    }
}
