//! Lines of a table, as whole numbers: the right side first, then those of the columns; what isn't kept is 0.
ghost use Rattle.std.specs.Prelude.{◌≡◌, ◌+◌, ◌<◌, ◌≤◌, ◌^◌, suc, pos, neg_ℤ, ◌+ℤ◌, ◌*ℤ◌, ◌<ℤ◌, length, unsigned_abs, IfOk, MatchOption, MatchResult};
ghost use Rattle.rt_rows.specs.Known.{IsSmall};
ghost use Rattle.rt_solved.specs.Lines.{Divides};
ghost use Rattle.rt_tableau.specs.Numbers.{number_of, AreSmall, IsWide, AreWide, AreCombined, IsCommon, IsPastOver, IsSmallOver, SomePast, AreQuotients, IsFirstOver, IsUpdated, PassesAt};

use rt_base::{List, OutOfMemory};
use rt_frac::common_divisor;
use std::alloc::Global;

// The greatest magnitude of a number that a table keeps.
const LIMIT: u128 = 1_000_000_000_000_000_000;

// The line's number at a place.
pub(crate) fn number(line: &[i64], s: usize) -> i64
    ensures { result ≡ number_of line.now s }
{
    match line.get(s) {
        Some(number) => *number,
        None => 0,
    }
}

// The second number times the fourth, less the first times the third.
pub(crate) fn crossed(a: &i64, b: &i64, x: &i64, y: &i64) -> i128
    requires a { IsSmall a.now }
    requires b { IsSmall b.now }
    requires x { IsSmall x.now }
    requires y { IsSmall y.now }
    ensures value { result ≡ neg_ℤ a.now *ℤ x.now +ℤ b.now *ℤ y.now }
    ensures wide { IsWide result }
{
    i128::from(*b) * i128::from(*y) - i128::from(*a) * i128::from(*x)
}

// The numbers of a line, and as much of the pivot's line as takes column q away.
fn combined(alloc: Global, line: &[i64], pivot: &[i64], q: usize) -> Result<Vec<i128>, OutOfMemory>
    requires line { AreSmall line.now }
    requires pivot { AreSmall pivot.now }
    requires few { q + 1 < 2 ^ 33 }
    ensures { IfOk result (λ values. AreCombined line.now pivot.now q values.items) }
{
    let a = number(pivot, q + 1);
    let b = number(line, q + 1);
    let mut values = Vec::new(alloc);
    for s in 0..line.len().max(pivot.len()) {
        values.push(crossed(&a, &b, &number(line, s), &number(pivot, s)))?;
    }
    Ok(values)
}

// What divides all the numbers, of which the one at the place is above 0.
fn divisor_of(values: &[i128], place: usize) -> u128
    requires wide { AreWide values.now }
    requires there { place < length values.now }
    requires positive { pos 0 <ℤ number_of values.now place }
    ensures common { IsCommon (number_of values.now) result }
    ensures small { result ≤ unsigned_abs (number_of values.now place) }
{
    let mut common = values[place].unsigned_abs();
    for value in values {
        common = common_divisor(common, value.unsigned_abs());
    }
    common
}

// The quotient of a number by one that divides it, or None where it is past the limit.
pub(crate) fn quotient(value: &i128, common: u128) -> Option<i64>
    requires wide { IsWide value.now }
    requires some { 0 < common }
    requires whole { Divides (pos common) value.now }
    ensures { MatchOption result (IsPastOver common value.now) (λ quotient. IsSmallOver common value.now quotient) }
{
    let size = value.unsigned_abs() / common;
    if LIMIT < size {
        return None;
    }
    let size = size as i64;
    Some(if *value < 0 { -size } else { size })
}

// The quotients of the numbers, or None where one is past the limit.
fn narrowed(alloc: Global, values: &[i128], common: u128) -> Result<Option<List<i64>>, OutOfMemory>
    requires wide { AreWide values.now }
    requires common { IsCommon (number_of values.now) common }
    ensures { IfOk result (λ found. MatchOption found (SomePast common values.now) (λ line. AreQuotients common values.now line)) }
{
    let mut line = List::new(alloc);
    for value in values {
        let Some(number) = quotient(value, common) else {
            return Ok(None);
        };
        line.push(number)?;
    }
    Ok(Some(line))
}

// The first place at which a quotient is past the limit.
fn first_past(values: &[i128], common: u128) -> usize
    requires wide { AreWide values.now }
    requires common { IsCommon (number_of values.now) common }
    requires some { SomePast common values.now }
    ensures { IsFirstOver common values.now result }
{
    for s in 1..values.len() {
        let Some(_number) = quotient(&values[s], common) else {
            return s;
        };
    }
    0
}

// The line after an exchange at column q of the pivot's line, or the first place at which it would be past the limit.
pub(crate) fn updated(
    alloc: Global,
    line: &[i64],
    pivot: &[i64],
    q: usize,
    basic: usize,
) -> Result<Result<List<i64>, usize>, OutOfMemory>
    requires line { AreSmall line.now }
    requires pivot { AreSmall pivot.now }
    requires few { q + 1 < 2 ^ 33 }
    requires there { basic + 1 < 2 ^ 33 }
    requires negative { number_of pivot.now (suc q) <ℤ pos 0 }
    requires positive { pos 0 <ℤ number_of line.now (suc basic) }
    requires apart { number_of pivot.now (suc basic) ≡ pos 0 }
    ensures { IfOk result (λ new. MatchResult new (IsUpdated line.now pivot.now q) (PassesAt line.now pivot.now q)) }
{
    let values = combined(alloc, line, pivot, q)?;
    let common = divisor_of(values.as_slice(), basic + 1);
    match narrowed(alloc, values.as_slice(), common)? {
        Some(line) => Ok(Ok(line)),
        None => Ok(Err(first_past(values.as_slice(), common))),
    }
}
