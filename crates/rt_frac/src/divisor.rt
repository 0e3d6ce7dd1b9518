//! The greatest common divisor.
ghost use Rattle.std.specs.Int.{IsGcd};

/// The greatest common divisor of two numbers, by remainders. (Euclid.)
pub fn common_divisor(a: u128, b: u128) -> u128
    ensures { IsGcd a b result }
{
    let mut greater = a;
    let mut less = b;
    while less != 0 {
        let rest = greater % less;
        greater = less;
        less = rest;
    }
    greater
}
