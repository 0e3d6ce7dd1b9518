//! Which line a text is.
ghost use Rattle.std.specs.Prelude.{◌≡◌, ◌≢◌, ◌∷◌, [], ◌==◌, true, false, MatchBool, IfOk, unwrap_or};
ghost use Rattle.std.specs.List.{find, slice_split};
ghost use Rattle.std.specs.Str.{bytes_eq};
ghost use Rattle.cert_lines.specs.Lines.{row_word, words_of, spoken};
ghost use Rattle.cert_lines.specs.Limits.{IsWithin};
ghost use Rattle.cert_lines.specs.Read.{IsRead};
ghost use Rattle.cert_lines.specs.Guesses.{bytes_of, word_at, begins_number, first_word, infeasible, axis, all_lines, plain_line, row_named, IsGuess};

use crate::line::Line;
use crate::numbers::{Numbers, begins_number, count, number, numbers_of, variable, word_at};
use crate::rows::{all_rows, row_word};
use crate::within::is_within;
use crate::writing::put_spoken;
use rt_base::OutOfMemory;
use rt_rows::{Of, Var};
use std::alloc::{AllocError, Global};

// How many plain lines differ in their first word.
const PLAIN: usize = 13;

/// The one line that the text is, where the line feed behind it isn't part of the text. None exactly where it is none with its numbers within the limits:
/// words that are no line's, a number with a leading zero or a plus, a space too many, a number beyond its limit. The one error is a want of memory.
/// (The format is this project's own.)
pub fn read_line(alloc: Global, text: &[u8]) -> Result<Option<Line>, OutOfMemory>
    ensures { IfOk result (λ answer. IsRead text.now answer) }
{
    let guess = guess_of(alloc, text)?;
    if is_within(&guess) && is_text_of(alloc, &guess, text)? {
        Ok(Some(guess))
    } else {
        Ok(None)
    }
}

// Whether the line is the text.
fn is_text_of(alloc: Global, line: &Line, text: &[u8]) -> Result<bool, OutOfMemory>
    ensures { IfOk result (λ same. MatchBool same (text.now ≡ spoken (words_of line.now)) (text.now ≢ spoken (words_of line.now))) }
{
    let mut written = Vec::new(alloc);
    put_spoken(&mut written, line)?;
    Ok(written.as_slice() == text)
}

// The one line that the text can be.
fn guess_of(alloc: Global, text: &[u8]) -> Result<Line, OutOfMemory>
    ensures { IfOk result (λ guess. (line : Line) → IsWithin line → text.now ≡ spoken (words_of line) → guess ≡ line) }
{
    let words = words_in(alloc, text)?;
    Ok(guess(words.as_slice()))
}

// The words of the text.
fn words_in(alloc: Global, text: &[u8]) -> Result<Vec<&[u8]>, AllocError>
    ensures { IfOk result (λ words. bytes_of words.items ≡ slice_split (λ byte. byte == 32) text.now) }
{
    text.split(|byte| *byte == b' ').collect(alloc)
}

// The one line that the words can be.
fn guess(words: &[&[u8]]) -> Line
    ensures { IsGuess (bytes_of words.now) result }
{
    if begins_number(word_at(words, 0)) {
        share(words)
    } else {
        plain(words)
    }
}

// The share that the words can be.
fn share(words: &[&[u8]]) -> Line
    requires { begins_number (word_at (bytes_of words.now) 0) ≡ true }
    ensures { IsGuess (bytes_of words.now) result }
{
    Line::Share {
        times: number(word_at(words, 0)),
        of: row_named(
            word_at(words, 1),
            count(word_at(words, 2)),
            count(word_at(words, 3)),
            count(word_at(words, 4)),
        ),
    }
}

// The row with that word and these numbers.
fn row_named(word: &[u8], i: u32, j: u32, k: u32) -> Of
    ensures { result ≡ unwrap_or (row_named word.now i j k) (Of.Up i) }
{
    row_in(&all_rows(i, j, k), word, Of::Up(i))
}

// The first of the rows with that word, or another one.
fn row_in(rows: &[Of], word: &[u8], other: Of) -> Of
    ensures { result ≡ unwrap_or (find (λ row. bytes_eq (row_word row) word.now) rows.now) other }
{
    for row in rows {
        if row_word(row).as_bytes() == word {
            return *row;
        }
    }
    other
}

// The line that isn't a share's and that the words can be.
fn plain(words: &[&[u8]]) -> Line
    requires { begins_number (word_at (bytes_of words.now) 0) ≡ false }
    ensures { IsGuess (bytes_of words.now) result }
{
    plain_line(
        word_at(words, 0),
        word_at(words, 1),
        &numbers_of(words),
        variable(word_at(words, 1)),
    )
}

// The line that isn't a share's with that first word.
fn plain_line(first: &[u8], second: &[u8], numbers: &Numbers, var: Var) -> Line
    ensures { result ≡ unwrap_or (plain_line first.now second.now numbers.now var) Line.End }
{
    line_in(&all_lines(second, numbers, var), first)
}

// The first of the lines with that first word.
fn line_in(lines: &[Line], first: &[u8]) -> Line
    ensures { result ≡ unwrap_or (find (λ line. bytes_eq (first_word line) first.now) lines.now) Line.End }
{
    for line in lines {
        if first_word(line).as_bytes() == first {
            return *line;
        }
    }
    Line::End
}

// The first word of a line that isn't a share's.
fn first_word(line: &Line) -> &'static str
    ensures { result.now ≡ first_word line.now }
{
    match *line {
        Line::Title => "retarget",
        Line::Done { .. } => "done",
        Line::NoneAcross => "infeasible",
        Line::NoneUpwards { .. } => "infeasible",
        Line::NoAxis => "axis",
        Line::Axis { .. } => "axis",
        Line::Strip { .. } => "strip",
        Line::Column { .. } => "column",
        Line::Across => "across",
        Line::Upwards => "upwards",
        Line::Branch { .. } => "branch",
        Line::Cut { .. } => "cut",
        Line::Bound { .. } => "bound",
        Line::Empty { .. } => "empty",
        Line::Share { .. } => "",
        Line::End => "end",
    }
}

// A line of each first word but a share, with these numbers and this variable.
fn all_lines(second: &[u8], numbers: &Numbers, var: Var) -> [Line; PLAIN]
    ensures { result ≡ all_lines second.now numbers.now var }
{
    [
        Line::Title,
        Line::Done {
            width: numbers.second,
            height: numbers.third,
        },
        Line::Strip {
            number: numbers.second,
            left: numbers.third,
            bottom: numbers.fourth,
            right: numbers.fifth,
            top: numbers.sixth,
        },
        Line::Column {
            number: numbers.second,
            left: numbers.third,
            right: numbers.fourth,
        },
        Line::Across,
        Line::Upwards,
        Line::Branch {
            var,
            at: numbers.third,
        },
        Line::Cut {
            over: numbers.second,
            shares: numbers.third,
        },
        Line::Bound {
            over: numbers.second,
            shares: numbers.third,
        },
        Line::Empty {
            over: numbers.second,
            shares: numbers.third,
        },
        Line::End,
        axis(second, numbers),
        infeasible(second, numbers),
    ]
}

// The line behind `infeasible`.
fn infeasible(second: &[u8], numbers: &Numbers) -> Line
    ensures { result ≡ infeasible second.now numbers.now }
{
    if second == "across".as_bytes() {
        Line::NoneAcross
    } else {
        Line::NoneUpwards {
            width: numbers.third,
        }
    }
}

// The line behind `axis`.
fn axis(second: &[u8], numbers: &Numbers) -> Line
    ensures { result ≡ axis second.now numbers.now }
{
    if begins_number(second) {
        Line::Axis {
            twice: numbers.second,
        }
    } else {
        Line::NoAxis
    }
}
