//! Which hosts of a strip are the lowest, and which are the highest.
ghost use Rattle.std.specs.Prelude.{◌≡◌, ◌<◌, ◌^◌, length, MatchBool};
ghost use Rattle.rt_strips.specs.Placed.{bottom_of, top_of};
ghost use Rattle.rt_template.specs.Between.{IsLowestHost, IsHighestHost};
ghost use Rattle.rt_view.specs.Job.{strips_of};
ghost use Rattle.rt_between.specs.Ends.{IsHostBelow, IsHostAbove, NoneBeginsBelow, NoneEndsAbove};

use crate::hosts::is_host;
use rt_view::Job;

/// Whether strip h is a host of strip i under an enclosure of the source's table, by its number from 0, and no host of i begins below it. It takes
/// the time of a pass over the strips where h is a host. (This project's own.)
pub fn is_lowest_host(job: &Job, q: u32, i: u32, h: u32) -> bool
    requires few { length job.now.view.strips.list < 2 ^ 32 }
    ensures { MatchBool result (IsLowestHost job.now q i h) (¬ IsLowestHost job.now q i h) }
{
    if !is_host(job, q, i, h) {
        return false;
    }
    none_begins_below(job, q, i, &bottom_at(job, h))
}

/// Whether strip h is a host of strip i under an enclosure of the source's table, by its number from 0, and no host of i ends above it. It takes the
/// time of a pass over the strips where h is a host. (This project's own.)
pub fn is_highest_host(job: &Job, q: u32, i: u32, h: u32) -> bool
    requires few { length job.now.view.strips.list < 2 ^ 32 }
    ensures { MatchBool result (IsHighestHost job.now q i h) (¬ IsHighestHost job.now q i h) }
{
    if !is_host(job, q, i, h) {
        return false;
    }
    none_ends_above(job, q, i, &top_at(job, h))
}

// Whether no host of strip i begins below the row.
fn none_begins_below(job: &Job, q: u32, i: u32, row: &i64) -> bool
    requires few { length job.now.view.strips.list < 2 ^ 32 }
    ensures { MatchBool result (NoneBeginsBelow job.now q i row.now) (¬ NoneBeginsBelow job.now q i row.now) }
{
    for k in 0..job.view.strips.list.as_slice().len() as u32 {
        if is_host_below(job, q, i, k, row) {
            return false;
        }
    }
    true
}

// Whether no host of strip i ends above the row.
fn none_ends_above(job: &Job, q: u32, i: u32, row: &i64) -> bool
    requires few { length job.now.view.strips.list < 2 ^ 32 }
    ensures { MatchBool result (NoneEndsAbove job.now q i row.now) (¬ NoneEndsAbove job.now q i row.now) }
{
    for k in 0..job.view.strips.list.as_slice().len() as u32 {
        if is_host_above(job, q, i, k, row) {
            return false;
        }
    }
    true
}

// Whether strip k is a host of strip i and begins below the row.
fn is_host_below(job: &Job, q: u32, i: u32, k: u32, row: &i64) -> bool
    ensures { MatchBool result (IsHostBelow job.now q i row.now k) (¬ IsHostBelow job.now q i row.now k) }
{
    bottom_at(job, k) < *row && is_host(job, q, i, k)
}

// Whether strip k is a host of strip i and ends above the row.
fn is_host_above(job: &Job, q: u32, i: u32, k: u32, row: &i64) -> bool
    ensures { MatchBool result (IsHostAbove job.now q i row.now k) (¬ IsHostAbove job.now q i row.now k) }
{
    *row < top_at(job, k) && is_host(job, q, i, k)
}

// The bottom of strip k in the source; 0 where there is no such strip.
fn bottom_at(job: &Job, k: u32) -> i64
    ensures { result ≡ bottom_of (strips_of job.now) k }
{
    match job.view.strips.list.as_slice().get(k as usize) {
        Some(strip) => strip.at.y1,
        None => 0,
    }
}

// The top of strip k in the source; 1 where there is no such strip.
fn top_at(job: &Job, k: u32) -> i64
    ensures { result ≡ top_of (strips_of job.now) k }
{
    match job.view.strips.list.as_slice().get(k as usize) {
        Some(strip) => strip.at.y2,
        None => 1,
    }
}
