//! A law of fractions, a function without a body whose contract is the law.
ghost use Rattle.rt_frac.specs.Fracs.{OneFraction};

/// Law: two numbers, of which the second isn't 0, have one fraction in lowest terms at most.
pub fn one_fraction()
    ensures { OneFraction }
{}
