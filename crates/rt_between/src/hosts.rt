//! Which strips are hosts of which.
ghost use Rattle.std.specs.Prelude.{◌≡◌, ◌<◌, ◌==◌, length, MatchBool};
ghost use Rattle.std.specs.List.{list_any};
ghost use Rattle.rt_base.specs.Plane.{area};
ghost use Rattle.rt_strips.specs.Placed.{placed};
ghost use Rattle.rt_rules.specs.Pairs.{lower_of as lower_mask};
ghost use Rattle.rt_tech.specs.Rules.{is_lower_of as is_lower, has_lower as has_lower_mask};
ghost use Rattle.rt_template.specs.Between.{IsStripOf, IsEnclosed, IsHostIn, IsHostUnder};
ghost use Rattle.rt_between.specs.Reaches.{IsBefore, ReachColumns, ReachRows, Overlap, OverlapStrips};

use crate::sides::{is_cut, is_strip_in, is_strip_of};
use rt_base::Rect;
use rt_strips::Strip;
use rt_tech::{Enclose, Mask, Tech};
use rt_view::Job;

/// Whether strip h is a host of strip i under an enclosure of the source's table, by its number from 0: the enclosure speaks of i, and h is a strip of
/// its mask that shares a cell with i grown by the enclosure's number. (This project's own.)
pub fn is_host(job: &Job, q: u32, i: u32, h: u32) -> bool
    ensures { MatchBool result (IsHostUnder job.now q i h) (¬ IsHostUnder job.now q i h) }
{
    match job.source.encloses.as_slice().get(q as usize) {
        Some(enclose) => is_host_in(job, enclose, i, h),
        None => false,
    }
}

// Whether the enclosure speaks of strip i, and strip h of its mask shares a cell with i grown by its number.
fn is_host_in(job: &Job, enclose: &Enclose, i: u32, h: u32) -> bool
    ensures { MatchBool result (IsHostIn job.now enclose.now i h) (¬ IsHostIn job.now enclose.now i h) }
{
    if !is_enclosed(job, enclose, i) {
        return false;
    }
    if !is_strip_of(job, enclose.mask, h) {
        return false;
    }
    overlap_strips(job, &enclose.number, i, h)
}

// Whether the enclosure speaks of strip i.
fn is_enclosed(job: &Job, enclose: &Enclose, i: u32) -> bool
    ensures { MatchBool result (IsEnclosed job.now enclose.now i) (¬ IsEnclosed job.now enclose.now i) }
{
    is_strip_in(job, enclose.cut, &lower_of(&job.source, enclose), i)
}

// The lower mask in which strips have to lie for the enclosure to speak of them, if its mask is one.
fn lower_of(tech: &Tech, enclose: &Enclose) -> Option<u32>
    ensures { result ≡ lower_mask tech.now enclose.now }
{
    if has_lower(tech.masks.as_slice(), enclose.cut, enclose.mask) {
        Some(enclose.mask)
    } else {
        None
    }
}

// Whether mask number `cut` is a cut with this lower mask.
fn has_lower(masks: &[Mask], cut: u32, n: u32) -> bool
    ensures { result ≡ has_lower_mask masks.now cut n }
{
    match masks.get(cut as usize) {
        Some(mask) => is_lower_of(mask, n),
        None => false,
    }
}

// Whether the mask is a cut with this lower mask.
fn is_lower_of(cut: &Mask, n: u32) -> bool
    ensures { result ≡ is_lower cut.now n }
{
    is_cut(&cut.role) && contains(cut.lowers.as_slice(), n)
}

// Whether the number stands in the list.
fn contains(numbers: &[u32], n: u32) -> bool
    ensures { result ≡ list_any (λ m. n == m) numbers.now }
{
    numbers.iter().any(|m| n == *m)
}

// Whether strip h shares a cell with strip i grown by the number.
fn overlap_strips(job: &Job, number: &i64, i: u32, h: u32) -> bool
    requires first { i < length job.now.view.strips.list }
    requires second { h < length job.now.view.strips.list }
    ensures { MatchBool result (OverlapStrips job.now number.now i h) (¬ OverlapStrips job.now number.now i h) }
{
    let list = job.view.strips.list.as_slice();
    overlap(&list[i as usize], &list[h as usize], number)
}

// Whether the second strip shares a cell with the first one grown by the number.
fn overlap(grown: &Strip, host: &Strip, number: &i64) -> bool
    ensures { MatchBool result
        (Overlap (placed grown.now).area (placed host.now).area number.now)
        (¬ Overlap (placed grown.now).area (placed host.now).area number.now) }
{
    have_common_columns(&grown.at, &host.at, number)
        && have_common_rows(&grown.at, &host.at, number)
}

// Whether the second rectangle shares a column with the first one grown by the number.
fn have_common_columns(grown: &Rect, host: &Rect, number: &i64) -> bool
    ensures { MatchBool result
        (ReachColumns (area grown.now) (area host.now) number.now)
        (¬ ReachColumns (area grown.now) (area host.now) number.now) }
{
    is_before(&host.x1, &grown.x2, number) && is_before(&grown.x1, &host.x2, number)
}

// Whether the second rectangle shares a row with the first one grown by the number.
fn have_common_rows(grown: &Rect, host: &Rect, number: &i64) -> bool
    ensures { MatchBool result
        (ReachRows (area grown.now) (area host.now) number.now)
        (¬ ReachRows (area grown.now) (area host.now) number.now) }
{
    is_before(&host.y1, &grown.y2, number) && is_before(&grown.y1, &host.y2, number)
}

// Whether the first place lies before the one that is the number behind the second.
fn is_before(low: &i64, high: &i64, number: &i64) -> bool
    ensures { MatchBool result (IsBefore low.now high.now number.now) (¬ IsBefore low.now high.now number.now) }
{
    i128::from(*low) < i128::from(*high) + i128::from(*number)
}
