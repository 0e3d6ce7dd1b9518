//! Fractions.
ghost use Rattle.std.specs.Prelude.{◌≡◌, ℤ, pos, ◌+ℤ◌, ◌*ℤ◌, MatchOption};
ghost use Rattle.rt_frac.specs.Fracs.{IsFrac, IsFracOf, HasNoFrac, IsFloor, IsCeiling, CrossFit, IsOrderOf, SumFits, ProductFits};

use crate::divisor::common_divisor;
use crate::sizes::{signed, signs_differ};
use std::cmp::Ordering;

/// A fraction. (This project's own.)
#[derive(Clone, Copy, Drop)]
pub struct Frac {
    /// The part above the line.
    pub num: i128,
    /// The part below it, above 0 in a fraction in lowest terms.
    pub den: i128,
}

impl Frac {
    /// The fraction of two numbers in lowest terms. None where the second is 0, or where a part doesn't fit in 128 bits.
    pub fn new(num: i128, den: i128) -> Option<Frac>
        ensures { MatchOption result (HasNoFrac num den) (IsFracOf num den) }
    {
        if den == 0 {
            return None;
        }
        let above = num.unsigned_abs();
        let below = den.unsigned_abs();
        let common = common_divisor(above, below);
        let Some(top) = signed(above / common, signs_differ(&num, &den)) else {
            return None;
        };
        let Some(bottom) = signed(below / common, false) else {
            return None;
        };
        Some(Frac {
            num: top,
            den: bottom,
        })
    }

    /// The sum. None where one of the products of parts that it takes, or their sum, doesn't fit in 128 bits.
    pub fn add(&self, other: &Frac) -> Option<Frac>
        requires first { IsFrac self.now }
        requires second { IsFrac other.now }
        ensures { MatchOption result (¬ SumFits self.now other.now)
            (IsFracOf (self.now.num *ℤ other.now.den +ℤ other.now.num *ℤ self.now.den) (self.now.den *ℤ other.now.den)) }
    {
        let first = self.num.checked_mul(other.den)?;
        let second = other.num.checked_mul(self.den)?;
        let Some(sum) = first.checked_add(second) else {
            return None;
        };
        let Some(below) = self.den.checked_mul(other.den) else {
            return None;
        };
        Frac::new(sum, below)
    }

    /// The product. None where the product of the parts above, or of those below, doesn't fit in 128 bits.
    pub fn mul(&self, other: &Frac) -> Option<Frac>
        requires first { IsFrac self.now }
        requires second { IsFrac other.now }
        ensures { MatchOption result (¬ ProductFits self.now other.now)
            (IsFracOf (self.now.num *ℤ other.now.num) (self.now.den *ℤ other.now.den)) }
    {
        let above = self.num.checked_mul(other.num)?;
        let below = self.den.checked_mul(other.den)?;
        Frac::new(above, below)
    }

    /// How it compares with another. None where one of the products of parts across doesn't fit in 128 bits.
    pub fn cmp(&self, other: &Frac) -> Option<Ordering>
        ensures { MatchOption result (¬ CrossFit self.now other.now) (IsOrderOf self.now other.now) }
    {
        let first = self.num.checked_mul(other.den)?;
        let second = other.num.checked_mul(self.den)?;
        Some(first.cmp(&second))
    }

    /// The greatest whole number that isn't above it.
    pub fn floor(&self) -> i128
        requires { IsFrac self.now }
        ensures { IsFloor self.now result }
    {
        self.num.div_euclid(self.den)
    }

    /// The least whole number that isn't below it.
    pub fn ceil(&self) -> i128
        requires { IsFrac self.now }
        ensures { IsCeiling self.now result }
    {
        let floor = self.num.div_euclid(self.den);
        if self.num.rem_euclid(self.den) == 0 {
            floor
        } else {
            floor + 1
        }
    }
}
