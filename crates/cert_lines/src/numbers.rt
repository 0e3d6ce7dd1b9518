//! Numbers and variables as words write them. What isn't written so gives some number: whether the words are those of the line that comes of it is
//! tested afterwards.
ghost use Rattle.std.specs.Prelude.{◌≡◌, ◌∷◌, map};
ghost use Rattle.cert_lines.specs.Guesses.{bytes_of, word_at, ReadsNumber, ReadsCount, ReadsVariable, ReadsNumbers, begins_number, variable_of};

use rt_rows::Var;
use std::str::from_utf8;

/// The numbers of the words from the second to the sixth.
#[derive(Clone, Copy, Drop)]
pub struct Numbers {
    /// That of the second word.
    pub second: i128,
    /// That of the third.
    pub third: i128,
    /// That of the fourth.
    pub fourth: i128,
    /// That of the fifth.
    pub fifth: i128,
    /// That of the sixth.
    pub sixth: i128,
}

/// The numbers of the words.
pub fn numbers_of(words: &[&[u8]]) -> Numbers
    ensures { ReadsNumbers (bytes_of words.now) result }
{
    Numbers {
        second: number(word_at(words, 1)),
        third: number(word_at(words, 2)),
        fourth: number(word_at(words, 3)),
        fifth: number(word_at(words, 4)),
        sixth: number(word_at(words, 5)),
    }
}

/// The word at a place, or nothing where there is none.
pub fn word_at<'a>(words: &[&'a [u8]], i: usize) -> &'a [u8]
    ensures { result.now ≡ word_at (bytes_of words.now) i }
{
    match words.get(i) {
        Some(word) => word,
        None => &[],
    }
}

/// The number that the word writes.
pub fn number(word: &[u8]) -> i128
    ensures { ReadsNumber word.now result }
{
    match from_utf8(word) {
        Ok(text) => match text.parse::<i128>() {
            Ok(number) => number,
            Err(_) => 0,
        },
        Err(_) => 0,
    }
}

/// The number of 32 bits that the word writes.
pub fn count(word: &[u8]) -> u32
    ensures { ReadsCount word.now result }
{
    match from_utf8(word) {
        Ok(text) => match text.parse::<u32>() {
            Ok(number) => number,
            Err(_) => 0,
        },
        Err(_) => 0,
    }
}

/// The variable that the word writes.
pub fn variable(word: &[u8]) -> Var
    ensures { ReadsVariable word.now result }
{
    match word.split_first() {
        Some((letter, digits)) => variable_of(*letter, count(digits)),
        None => Var::Width,
    }
}

// The variable of a letter, and of a number where the letter takes one.
fn variable_of(letter: u8, number: u32) -> Var
    ensures { result ≡ variable_of letter number }
{
    match letter {
        b'l' => Var::L(number),
        b'r' => Var::R(number),
        b'b' => Var::B(number),
        b't' => Var::T(number),
        b'T' => Var::Height,
        b'A' => Var::Axis,
        _ => Var::Width,
    }
}

/// Whether the word begins as a number does.
pub fn begins_number(word: &[u8]) -> bool
    ensures { result ≡ begins_number word.now }
{
    match word.first() {
        Some(byte) => *byte == b'-' || byte.is_ascii_digit(),
        None => false,
    }
}
