//! Rows, their terms, and what they speak of.
ghost use Rattle.std.specs.Prelude.{◌≡◌, pos, ◌≤ℤ◌};
ghost use Rattle.rt_rows.specs.Rows as spec;

/// What a row speaks of. Numbers are of strips, from 0. Values are target steps. (This project's own.)
#[derive(Clone, Copy, Drop)]
pub enum Var {
    /// The left side of a strip.
    L(u32),
    /// The right side of a strip.
    R(u32),
    /// The bottom of a strip.
    B(u32),
    /// The top of a strip.
    T(u32),
    /// The extent of the whole drawing across.
    Width,
    /// The extent of the whole drawing upwards.
    Height,
    /// Twice the place of the mirror axis.
    Axis,
}

/// A whole multiple of a variable.
#[derive(Clone, Copy, Drop)]
pub struct Term {
    /// The variable.
    pub var: Var,
    /// How many times it is taken.
    pub times: i64,
}

/// A row: the sum of its terms is at least `least`. Units are target steps. (This project's own.)
#[derive(Clone, Copy, Drop)]
pub struct Row {
    /// Up to three terms.
    pub terms: [Option<Term>; 3],
    /// The least value of their sum.
    pub least: i64,
}

impl Row {
    /// The variable is at least a number.
    pub fn at_least(var: Var, least: i64) -> Row
        ensures { result ≡ spec.at_least var least }
    {
        Row {
            terms: [Some(Term { var, times: 1 }), None, None],
            least,
        }
    }

    /// The variable is at most a number that isn't below 0.
    pub fn at_most(var: Var, most: i64) -> Row
        requires { pos 0 ≤ℤ most }
        ensures { result ≡ spec.at_most var most }
    {
        Row {
            terms: [Some(Term { var, times: -1 }), None, None],
            least: -most,
        }
    }

    /// The second variable is beyond the first by a number at least.
    pub fn beyond(first: Var, second: Var, by: i64) -> Row
        ensures { result ≡ spec.beyond first second by }
    {
        Row {
            terms: [
                Some(Term {
                    var: second,
                    times: 1,
                }),
                Some(Term {
                    var: first,
                    times: -1,
                }),
                None,
            ],
            least: by,
        }
    }
}
