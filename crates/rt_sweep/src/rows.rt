//! The heights at which bars begin and end.
ghost use Rattle.std.specs.Prelude.{◌≡◌, ◌<◌, ◌≤◌, ◌≤ℤ◌, ℕ, length, All, MatchBool, MatchOption, slice_index_or};
ghost use Rattle.rt_sweep.specs.Rows.{GoOn, HaveEnded, AreFirstRows, IsLeastTop, IsNextBottom, NoneIsLeft};
ghost use Rattle.rt_sweep.specs.declared.bar.Bar.{Bar};

use crate::bar::Bar;

// The bottom of the next slab: the height, where an active bar goes on, or else where the next bar begins.
pub(crate) fn next_bottom(bars: &[Bar], next: usize, active: &[Bar], height: i64) -> Option<i64>
    ensures { MatchOption result (NoneIsLeft bars.now next active.now height) (IsNextBottom bars.now next active.now height) }
{
    if goes_on(active, height) {
        Some(height)
    } else if next < bars.len() {
        Some(bars[next].at.y1)
    } else {
        None
    }
}

// Whether some bar ends above the height.
pub(crate) fn goes_on(bars: &[Bar], height: i64) -> bool
    ensures { MatchBool result (GoOn bars.now height) (HaveEnded bars.now height) }
{
    for bar in bars {
        if bar.at.y2 > height {
            return true;
        }
    }
    false
}

// The place of the first bar from a place on that begins above the row.
pub(crate) fn end_of_row(bars: &[Bar], from: usize, row: i64) -> usize
    requires { from ≤ length bars.now }
    ensures { AreFirstRows bars.now from row result }
{
    let mut end = from;
    while end < bars.len() && bars[end].at.y1 <= row {
        end += 1;
    }
    end
}

// The lowest of the tops of the bars, or the height where none ends below it.
pub(crate) fn least_top(bars: &[Bar], height: i64) -> i64
    ensures { IsLeastTop bars.now height result }
{
    let mut least = height;
    for bar in bars {
        if bar.at.y2 < least {
            least = bar.at.y2;
        }
    }
    least
}

// The highest of the tops of the bars, or the height where none ends above it.
pub(crate) fn greatest_top(bars: &[Bar], height: i64) -> i64
    ensures from { height ≤ℤ result }
    ensures tops { All (λ bar. bar.at.y2 ≤ℤ result) bars.now }
{
    let mut greatest = height;
    for bar in bars {
        if bar.at.y2 > greatest {
            greatest = bar.at.y2;
        }
    }
    greatest
}

// Where the bar at a place begins, or the height where there is none.
pub(crate) fn bottom_at(bars: &[Bar], place: usize, height: i64) -> i64
    ensures there { place < length bars.now → (d : Bar) → result ≡ (slice_index_or bars.now place d).at.y1 }
    ensures none { length bars.now ≤ place → result ≡ height }
{
    if place < bars.len() {
        bars[place].at.y1
    } else {
        height
    }
}
