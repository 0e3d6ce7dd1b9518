//! How the rows of two bars lie.
ghost use Rattle.std.specs.Prelude.{◌≡◌, ◌<◌, ◌≤ℤ◌, ◌<ℤ◌, length, MatchBool};
ghost use Rattle.rt_columns.specs.Bars.{line_at, IsLowerTop};

use rt_sweep::Bar;

/// Whether the bar at the one place ends where the one at the other begins, or below it.
pub(crate) fn lies_above(over: &[Bar], lower: usize, upper: usize) -> bool
    requires lower { lower < length over.now }
    requires upper { upper < length over.now }
    ensures { MatchBool result ((line_at over.now lower).top ≤ℤ (line_at over.now upper).bottom) ((line_at over.now upper).bottom <ℤ (line_at over.now lower).top) }
{
    over[lower].at.x2 <= over[upper].at.x1
}

/// Whether the bar at the one place ends below where the one at the other begins.
pub(crate) fn ends_below(over: &[Bar], lower: usize, upper: usize) -> bool
    requires lower { lower < length over.now }
    requires upper { upper < length over.now }
    ensures { MatchBool result ((line_at over.now lower).top <ℤ (line_at over.now upper).bottom) ((line_at over.now upper).bottom ≤ℤ (line_at over.now lower).top) }
{
    over[lower].at.x2 < over[upper].at.x1
}

/// The one of two places whose bar ends lower.
pub(crate) fn lower_top(over: &[Bar], first: usize, second: usize) -> usize
    requires first { first < length over.now }
    requires second { second < length over.now }
    ensures { IsLowerTop over.now first second result }
{
    if over[first].at.x2 < over[second].at.x2 {
        first
    } else {
        second
    }
}
