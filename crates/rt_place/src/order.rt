//! The rows of a template in the order in which the source's strips lie, so that few rounds find the least positions.
ghost use Rattle.std.specs.Prelude.{IfOk, IsPermutation};

use rt_base::{List, OutOfMemory, Rect};
use rt_rows::{Name, Row, Term, Var};
use rt_strips::Strip;
use std::alloc::Global;

// Where a row counts from in the source, and whether a strip begins there: what ends at a place comes before what begins there.
type Place = (i64, bool);

// The same rows, first those that count from nothing, and then in order of the sides of the source's strips that they count from.
pub(crate) fn in_source_order(
    alloc: Global,
    strips: &[Strip],
    rows: &[(Name, Row)],
) -> Result<List<(Name, Row)>, OutOfMemory>
    ensures { IfOk result (λ ordered. IsPermutation rows.now ordered) }
{
    let mut ordered: Vec<(Name, Row)> = rows.iter().copied().collect(alloc)?;
    ordered.sort_by_key(|named| counts_from(strips, &named.1))?;
    Ok(List::of(ordered))
}

// Where the row counts from.
fn counts_from(strips: &[Strip], row: &Row) -> Place {
    for term in &row.terms {
        if let Some(place) = taken_off(strips, term) {
            return place;
        }
    }
    (i64::MIN, false)
}

// Where the side lies that the term takes off, if it does.
fn taken_off(strips: &[Strip], term: &Option<Term>) -> Option<Place> {
    match term {
        Some(term) if term.times < 0 => Some(place_of(strips, term.var)),
        _ => None,
    }
}

// Where the side lies in the source. An extent lies behind all, and so does a strip that isn't there.
fn place_of(strips: &[Strip], var: Var) -> Place {
    let strip = match var {
        Var::L(i) | Var::R(i) | Var::B(i) | Var::T(i) => strips.get(i as usize),
        Var::Width | Var::Height | Var::Axis => None,
    };
    match strip {
        Some(strip) => side_of(&strip.at, var),
        None => (i64::MAX, true),
    }
}

// Where the side of the rectangle lies.
fn side_of(at: &Rect, var: Var) -> Place {
    match var {
        Var::L(_) => (at.x1, true),
        Var::R(_) => (at.x2, false),
        Var::B(_) => (at.y1, true),
        Var::T(_) => (at.y2, false),
        Var::Width | Var::Height | Var::Axis => (i64::MAX, true),
    }
}
