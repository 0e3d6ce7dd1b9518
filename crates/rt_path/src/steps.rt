//! Rows of differences as steps between places.
ghost use Rattle.std.specs.Prelude.{◌≡◌, ◌+◌, ◌<◌, ◌≤◌, ◌^◌, max, length, List as ListValue, map, IfOk, All};
ghost use Rattle.rt_path.specs.Steps.{HasThreeTerms, strips_for, strips_for_term, strips_for_terms, strips_for_rows, place_of, head_in, tail_in, term_at, step_for};

use crate::event::Step;
use rt_base::{List, OutOfMemory};
use rt_rows::{Name, Row, Term, Var};
use std::alloc::Global;

/// One more than the greatest number of a strip in the rows.
pub fn count_strips(rows: &[(Name, Row)]) -> usize
    requires { All HasThreeTerms rows.now }
    ensures value { result ≡ strips_for_rows rows.now }
    ensures few { result ≤ 2 ^ 32 }
{
    let mut count = 0;
    for named in rows {
        count = more(count, count_in(&named.1));
    }
    count
}

// The same of one row.
fn count_in(row: &Row) -> usize
    requires { length row.now.terms ≡ 3 }
    ensures value { result ≡ strips_for_terms row.now.terms }
    ensures few { result ≤ 2 ^ 32 }
{
    let mut count = 0;
    for term in &row.terms {
        count = more(count, count_of(term));
    }
    count
}

// The larger one.
fn more(a: usize, b: usize) -> usize
    ensures { result ≡ max a b }
{
    if a < b { b } else { a }
}

// One more than the number of the term's strip.
fn count_of(term: &Option<Term>) -> usize
    ensures value { result ≡ strips_for_term term.now }
    ensures few { result ≤ 2 ^ 32 }
{
    match term {
        Some(term) => match term.var {
            Var::L(i) | Var::R(i) | Var::B(i) | Var::T(i) => i as usize + 1,
            Var::Width | Var::Height | Var::Axis => 0,
        },
        None => 0,
    }
}

/// The steps of the rows, with so many strips.
pub fn steps_of(
    alloc: Global,
    rows: &[(Name, Row)],
    count: usize,
) -> Result<List<Step>, OutOfMemory>
    requires few { count ≤ 2 ^ 32 }
    ensures { IfOk result (λ steps. steps ≡ map (step_for count) rows.now) }
{
    let mut steps = List::new(alloc);
    for named in rows {
        steps.push(step_of(&named.0, &named.1, count))?;
    }
    Ok(steps)
}

// The step of a row.
fn step_of(name: &Name, row: &Row, count: usize) -> Step
    requires few { count ≤ 2 ^ 32 }
    ensures { result ≡ step_for count (name.now, row.now) }
{
    Step {
        name: *name,
        tail: tail_of(&row.terms[0], &row.terms[1], count),
        head: head_of(&row.terms[0], count),
        by: row.least,
    }
}

// The place of a row's first term, if it counts up.
fn head_of(first: &Option<Term>, count: usize) -> usize
    requires few { count ≤ 2 ^ 32 }
    ensures { result ≡ head_in count first.now }
{
    match first {
        Some(term) => {
            if 0 <= term.times {
                place_of(&term.var, count)
            } else {
                0
            }
        }
        None => 0,
    }
}

// The place of a row's second term, or of its first one if that counts down.
fn tail_of(first: &Option<Term>, second: &Option<Term>, count: usize) -> usize
    requires few { count ≤ 2 ^ 32 }
    ensures { result ≡ tail_in count first.now second.now }
{
    if let Some(term) = second {
        return place_of(&term.var, count);
    }
    match first {
        Some(term) => {
            if 0 <= term.times {
                0
            } else {
                place_of(&term.var, count)
            }
        }
        None => 0,
    }
}

// The place of a variable.
fn place_of(var: &Var, count: usize) -> usize
    requires few { count ≤ 2 ^ 32 }
    ensures { result ≡ place_of count var.now }
{
    match *var {
        Var::L(i) | Var::B(i) => 2 + i as usize,
        Var::R(i) | Var::T(i) => 2 + count + i as usize,
        Var::Width | Var::Height => 1,
        Var::Axis => 0,
    }
}
