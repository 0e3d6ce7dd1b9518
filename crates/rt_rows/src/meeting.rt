//! Whether positions meet a row.
ghost use Rattle.std.specs.Prelude.{◌≡◌, MatchBool};
ghost use Rattle.rt_rows.specs.Rows.{term_value, MeetsRow};
ghost use Rattle.rt_rows.specs.Places.{places};
ghost use Rattle.rt_rows.specs.Known.{HasVariable, HasVariableOf, HasVariables, IsSmallTerm, AreSmall, IsProduct};

use crate::positions::Positions;
use crate::row::{Row, Term, Var};

/// Whether the positions meet the row. Each variable that the row names has to have its entry, and neither its multiple nor its value may pass a
/// magnitude of 10^18. It takes no memory. (This project's own.)
pub fn meets(row: &Row, at: &Positions) -> bool
    requires there { HasVariables at.now row.now }
    requires small { AreSmall at.now row.now }
    ensures { MatchBool result (MeetsRow (places at.now) row.now) (¬ MeetsRow (places at.now) row.now) }
{
    let first = value(&row.terms[0], at);
    let second = value(&row.terms[1], at);
    let third = value(&row.terms[2], at);
    i128::from(row.least) <= first + second + third
}

// What a term is worth.
fn value(term: &Option<Term>, at: &Positions) -> i128
    requires there { HasVariableOf at.now term.now }
    requires small { IsSmallTerm at.now term.now }
    ensures value { result ≡ term_value (places at.now) term.now }
    ensures small { IsProduct result }
{
    match term {
        Some(term) => i128::from(term.times) * i128::from(place(&term.var, at)),
        None => 0,
    }
}

// The value of a variable.
fn place(var: &Var, at: &Positions) -> i64
    requires { HasVariable at.now var.now }
    ensures { result ≡ places at.now var.now }
{
    match *var {
        Var::L(i) => at.l.as_slice()[i as usize],
        Var::R(i) => at.r.as_slice()[i as usize],
        Var::B(i) => at.b.as_slice()[i as usize],
        Var::T(i) => at.t.as_slice()[i as usize],
        Var::Width => at.width,
        Var::Height => at.height,
        Var::Axis => match at.axis {
            Some(axis) => axis,
            None => 0,
        },
    }
}
