//! How a line is written.
ghost use Rattle.std.specs.Prelude.{◌≡◌, ◌++◌, ◌∷◌, [], map, decimal, OnOk};
ghost use Rattle.std.specs.List.{flat_map};
ghost use Rattle.std.specs.Fmt.{signed_decimal};
ghost use Rattle.cert_lines.specs.Lines.{words_of, behind_space, spoken, line_text};

use crate::line::Line;
use crate::rows::{row_numbers, row_word};
use crate::words::{Word, put_behind, put_words};
use rt_base::OutOfMemory;
use rt_rows::Of;

/// Appends the line to the text: its words parted by one space, and a line feed. The one error is a want of memory, after which a part of it may
/// have been appended. (The format is this project's own.)
#[tactic(auto, unfolding(crate::specs::Lines::line_text))]
pub fn put_line(out: &mut Vec<u8>, line: &Line) -> Result<(), OutOfMemory>
    ensures { OnOk result (out.new.items ≡ out.old.items ++ line_text line.now) }
{
    put_spoken(out, line)?;
    out.push(b'\n')?;
    Ok(())
}

/// Appends the line without its line feed.
pub fn put_spoken(out: &mut Vec<u8>, line: &Line) -> Result<(), OutOfMemory>
    ensures { OnOk result (out.new.items ≡ out.old.items ++ spoken (words_of line.now)) }
{
    match *line {
        Line::Title => put_words(
            out,
            &Word::Text("retarget"),
            &[Word::Text("certificate"), Word::Text("1")],
        ),
        Line::Done { width, height } => put_numbered(out, "done", &[width, height]),
        Line::NoneAcross => put_words(out, &Word::Text("infeasible"), &[Word::Text("across")]),
        Line::NoneUpwards { width } => put_words(
            out,
            &Word::Text("infeasible"),
            &[Word::Text("upwards"), Word::Number(width)],
        ),
        Line::NoAxis => put_words(out, &Word::Text("axis"), &[Word::Text("none")]),
        Line::Axis { twice } => put_numbered(out, "axis", &[twice]),
        Line::Strip {
            number,
            left,
            bottom,
            right,
            top,
        } => put_numbered(out, "strip", &[number, left, bottom, right, top]),
        Line::Column {
            number,
            left,
            right,
        } => put_numbered(out, "column", &[number, left, right]),
        Line::Across => put_words(out, &Word::Text("across"), &[]),
        Line::Upwards => put_words(out, &Word::Text("upwards"), &[]),
        Line::Branch { var, at } => put_words(
            out,
            &Word::Text("branch"),
            &[Word::Variable(var), Word::Number(at)],
        ),
        Line::Cut { over, shares } => put_numbered(out, "cut", &[over, shares]),
        Line::Bound { over, shares } => put_numbered(out, "bound", &[over, shares]),
        Line::Empty { over, shares } => put_numbered(out, "empty", &[over, shares]),
        Line::Share { times, of } => put_share(out, times, &of),
        Line::End => put_words(out, &Word::Text("end"), &[]),
    }
}

// Appends a word and numbers.
fn put_numbered(out: &mut Vec<u8>, word: &str, numbers: &[i128]) -> Result<(), OutOfMemory>
    ensures { OnOk result (out.new.items ≡ out.old.items ++ spoken (word.now ∷ map signed_decimal numbers.now)) }
{
    put_words(out, &Word::Text(word), &[])?;
    put_integers(out, numbers)
}

// Appends each number behind a space.
fn put_integers(out: &mut Vec<u8>, numbers: &[i128]) -> Result<(), OutOfMemory>
    ensures { OnOk result (out.new.items ≡ out.old.items ++ flat_map behind_space (map signed_decimal numbers.now)) }
{
    for number in numbers {
        put_behind(out, &[Word::Number(*number)])?;
    }
    Ok(())
}

// Appends the line of a share.
fn put_share(out: &mut Vec<u8>, times: i128, of: &Of) -> Result<(), OutOfMemory>
    ensures { OnOk result (out.new.items ≡ out.old.items ++ spoken (words_of (Line.Share times of.now))) }
{
    put_words(out, &Word::Number(times), &[Word::Text(row_word(of))])?;
    let (numbers, count) = row_numbers(of);
    put_numbers(out, &numbers[..count])
}

// Appends each number behind a space.
fn put_numbers(out: &mut Vec<u8>, numbers: &[u32]) -> Result<(), OutOfMemory>
    ensures { OnOk result (out.new.items ≡ out.old.items ++ flat_map behind_space (map decimal numbers.now)) }
{
    for number in numbers {
        put_behind(out, &[Word::Number(i128::from(*number))])?;
    }
    Ok(())
}
