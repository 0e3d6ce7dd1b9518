//! Reals of eight bytes that are whole numbers or quarter turns. (GDSII Release 6.)
ghost use Rattle.std.specs.Prelude.{◌≡◌, ◌≢◌, ◌+◌, ◌*◌, ◌/◌, ◌%◌, ◌^◌, ◌<◌, ◌≤◌, ◌↔◌, ℕ, ℤ, pos, ◌*ℤ◌, unsigned_abs, MatchOption, IsTrue};
ghost use Rattle.gds_records.specs.Reals.{is_negative, exponent, fraction, IsMagnitude, IsReal, IsQuarterTurns, signed};

// The greatest magnitude that `whole_real` answers.
const LARGEST: u64 = 0x8000_0000;

// The exponent at which the fraction is the value: 64, and one for each of the fraction's 14 places.
const WHOLE: u32 = 78;

// What a real's bits are.
#[derive(Clone, Copy)]
struct Parts {
    negative: bool,
    exponent: u32,
    fraction: u64,
}

/// The value of a real where it is whole and of magnitude at most 2^31, None exactly where it isn't. The fraction
/// may have zeros in front. (GDSII Release 6.)
pub fn whole_real(bytes: [u8; 8]) -> Option<i64>
    ensures { MatchOption result ((v : ℤ) → IsReal bytes v → unsigned_abs v ≤ 2 ^ 31 → ⊥)
        (λ v. IsReal bytes v × (unsigned_abs v ≤ 2 ^ 31)) }
{
    let parts = parts_of(bytes);
    let Some(number) = magnitude(parts.exponent, parts.fraction) else {
        return None;
    };
    Some(signed(parts.negative, number))
}

/// Whether the value of a real is 1. (GDSII Release 6.)
pub fn is_real_one(bytes: [u8; 8]) -> bool
    ensures { IsTrue result ↔ IsReal bytes (pos 1) }
{
    matches!(whole_real(bytes), Some(1))
}

/// How many quarter turns a real in degrees is, beside whole turns: 0 to 3, anticlockwise; None exactly where it
/// isn't a whole number of quarter turns. The value may be of any size. (GDSII Release 6.)
pub fn quarter_turns(bytes: [u8; 8]) -> Option<u8>
    ensures { MatchOption result ((q : ℤ) → IsReal bytes (pos 90 *ℤ q) → ⊥) (λ t. IsQuarterTurns bytes t) }
{
    let parts = parts_of(bytes);
    let Some(turns) = quarters(parts.exponent, parts.fraction) else {
        return None;
    };
    Some(if parts.negative {
        (4 - turns) % 4
    } else {
        turns
    })
}

// The number with its sign.
fn signed(negative: bool, number: u64) -> i64
    requires { number < 2 ^ 63 }
    ensures { result ≡ signed negative number }
{
    if negative {
        -(number as i64)
    } else {
        number as i64
    }
}

// The parts of a real.
#[tactic(auto, unfolding(crate::specs::Reals::is_negative, crate::specs::Reals::exponent, crate::specs::Reals::fraction))]
fn parts_of(bytes: [u8; 8]) -> Parts
    ensures negative { result.negative ≡ is_negative bytes }
    ensures exponent { result.exponent ≡ exponent bytes }
    ensures fraction { result.fraction ≡ fraction bytes }
    ensures small { result.exponent < 128 }
    ensures below { result.fraction < 2 ^ 56 }
{
    let bits = u64::from_be_bytes(bytes);
    Parts {
        negative: bits / 0x8000_0000_0000_0000 == 1,
        exponent: (bits / 0x100_0000_0000_0000 % 128) as u32,
        fraction: bits % 0x100_0000_0000_0000,
    }
}

// The whole number that an exponent and a fraction say, where it is at most 2^31.
fn magnitude(exponent: u32, fraction: u64) -> Option<u64>
    requires small { exponent < 128 }
    requires below { fraction < 2 ^ 56 }
    ensures { MatchOption result ((n : ℕ) → IsMagnitude exponent fraction n → n ≤ 2 ^ 31 → ⊥)
        (λ n. IsMagnitude exponent fraction n × (n ≤ 2 ^ 31)) }
{
    if exponent > WHOLE {
        return grown(fraction, exponent - WHOLE);
    }
    let Some(number) = shrunk(fraction, WHOLE - exponent) else {
        return None;
    };
    if number <= LARGEST {
        Some(number)
    } else {
        None
    }
}

// The fraction with so many zeros behind it, to the base 16, where that is at most 2^31.
fn grown(fraction: u64, places: u32) -> Option<u64>
    ensures { MatchOption result (2 ^ 31 < fraction * 16 ^ places)
        (λ n. (n ≡ fraction * 16 ^ places) × (n ≤ 2 ^ 31)) }
{
    if fraction == 0 {
        return Some(0);
    }
    if places >= 8 || fraction > LARGEST {
        return None;
    }
    let number = fraction * 16u64.pow(places);
    if number <= LARGEST {
        Some(number)
    } else {
        None
    }
}

// The fraction without so many zeros at its end, to the base 16, where it has them.
fn shrunk(fraction: u64, places: u32) -> Option<u64>
    requires { fraction < 2 ^ 56 }
    ensures { MatchOption result ((n : ℕ) → fraction ≢ n * 16 ^ places) (λ n. fraction ≡ n * 16 ^ places) }
{
    if fraction == 0 {
        return Some(0);
    }
    if places >= 14 {
        return None;
    }
    let unit = 16u64.pow(places);
    if fraction % unit == 0 {
        Some(fraction / unit)
    } else {
        None
    }
}

// How many times 90 the number is that an exponent and a fraction say, beside whole fours, where it is some.
fn quarters(exponent: u32, fraction: u64) -> Option<u8>
    requires small { exponent < 128 }
    requires below { fraction < 2 ^ 56 }
    ensures { MatchOption result ((q : ℕ) → IsMagnitude exponent fraction (90 * q) → ⊥)
        (λ t. (q : ℕ) × IsMagnitude exponent fraction (90 * q) × (t ≡ q % 4)) }
{
    if exponent > WHOLE {
        return if fraction % 45 == 0 { Some(0) } else { None };
    }
    let Some(number) = shrunk(fraction, WHOLE - exponent) else {
        return None;
    };
    if number % 90 == 0 {
        Some((number / 90 % 4) as u8)
    } else {
        None
    }
}
