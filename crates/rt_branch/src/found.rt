//! The best positions so far, and whether a node may have better ones.
ghost use Rattle.std.specs.Prelude.{◌≡◌, ◌<◌, pos, ◌-ℤ◌, ◌*ℤ◌, ◌<ℤ◌, ◌≤ℤ◌, MatchBool};
ghost use Rattle.rt_rows.specs.Known.{IsSmall};
ghost use Rattle.rt_branch.specs.Searches.{HasNoBetter, MayHaveBetter};
ghost use Rattle.rt_branch.specs.Ends.{IsSmallBest, AreKept};

use crate::parts::Best;
use rt_tableau::Tableau;

// Keeps the positions where there are none, or where their extent is less.
pub(crate) fn keep(best: &mut Option<Best>, found: Best)
    ensures { AreKept best.old found best.new }
{
    let less = match best {
        Some(kept) => found.extent < kept.extent,
        None => true,
    };
    if less {
        *best = Some(found);
    }
}

// Whether the first number over the second, rounded up, is no less than the extent.
fn is_no_less(right: &i64, over: &i64, extent: &i64) -> bool
    requires right { IsSmall right.now }
    requires over { IsSmall over.now }
    requires extent { IsSmall extent.now }
    ensures { MatchBool result (((extent.now -ℤ pos 1) *ℤ over.now) <ℤ right.now) (right.now ≤ℤ ((extent.now -ℤ pos 1) *ℤ over.now)) }
{
    (i128::from(*extent) - 1) * i128::from(*over) < i128::from(*right)
}

// Whether the node has no better positions than those that were found.
pub(crate) fn has_no_better(table: &Tableau, best: &Option<Best>) -> bool
    requires { IsSmallBest best.now }
    ensures { MatchBool result (HasNoBetter best.now table.now) (MayHaveBetter best.now table.now) }
{
    match best {
        Some(best) => match table.goal_row() {
            Some(i) => is_no_less(
                &table.whole(i, table.columns()),
                &table.whole(i, table.goal_column()),
                &best.extent,
            ),
            None => is_no_less(&0, &1, &best.extent),
        },
        None => false,
    }
}
