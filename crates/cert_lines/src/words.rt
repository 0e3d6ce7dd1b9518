//! The words of a line, and how they are written.
ghost use Rattle.std.specs.Prelude.{◌≡◌, ◌++◌, ◌∷◌, [], pos, OnOk};
ghost use Rattle.std.specs.List.{flat_map};
ghost use Rattle.cert_lines.specs.Lines.{variable_word, spoken};
ghost use Rattle.cert_lines.specs.Written.{word_text, text_behind};

use itoa::Buffer;
use rt_base::OutOfMemory;
use rt_rows::Var;

/// A word of a line.
#[derive(Clone, Copy, Drop)]
pub enum Word<'a> {
    /// Letters.
    Text(&'a str),
    /// A number in decimal digits, with `-` before it where it is below 0.
    Number(i128),
    /// A variable of a row.
    Variable(Var),
}

/// Writes a word, and then each other one behind a space.
pub fn put_words(out: &mut Vec<u8>, first: &Word<'_>, rest: &[Word<'_>]) -> Result<(), OutOfMemory>
    ensures { OnOk result (out.new.items ≡ out.old.items ++ (word_text first.now ++ flat_map text_behind rest.now)) }
{
    put_word(out, first)?;
    put_behind(out, rest)
}

/// Writes each word behind a space.
pub fn put_behind(out: &mut Vec<u8>, words: &[Word<'_>]) -> Result<(), OutOfMemory>
    ensures { OnOk result (out.new.items ≡ out.old.items ++ flat_map text_behind words.now) }
{
    for word in words {
        out.push(b' ')?;
        put_word(out, word)?;
    }
    Ok(())
}

// Writes a word.
fn put_word(out: &mut Vec<u8>, word: &Word<'_>) -> Result<(), OutOfMemory>
    ensures { OnOk result (out.new.items ≡ out.old.items ++ word_text word.now) }
{
    match *word {
        Word::Text(text) => put_bytes(out, text.as_bytes()),
        Word::Number(number) => put_number(out, number),
        Word::Variable(var) => put_variable(out, &var),
    }
}

// Writes a number.
fn put_number(out: &mut Vec<u8>, number: i128) -> Result<(), OutOfMemory>
    ensures { OnOk result (out.new.items ≡ out.old.items ++ word_text (Word.Number number)) }
{
    let mut digits = Buffer::new();
    put_bytes(out, digits.format(number).as_bytes())
}

// Writes a variable.
fn put_variable(out: &mut Vec<u8>, var: &Var) -> Result<(), OutOfMemory>
    ensures { OnOk result (out.new.items ≡ out.old.items ++ variable_word var.now) }
{
    match *var {
        Var::L(i) => put_lettered(out, b'l', i),
        Var::R(i) => put_lettered(out, b'r', i),
        Var::B(i) => put_lettered(out, b'b', i),
        Var::T(i) => put_lettered(out, b't', i),
        Var::Width => put_bytes(out, b"R"),
        Var::Height => put_bytes(out, b"T"),
        Var::Axis => put_bytes(out, b"A"),
    }
}

// Writes a letter and a number.
fn put_lettered(out: &mut Vec<u8>, letter: u8, number: u32) -> Result<(), OutOfMemory>
    ensures { OnOk result (out.new.items ≡ out.old.items ++ (letter ∷ word_text (Word.Number (pos number)))) }
{
    out.push(letter)?;
    put_number(out, i128::from(number))
}

// Writes bytes.
fn put_bytes(out: &mut Vec<u8>, bytes: &[u8]) -> Result<(), OutOfMemory>
    ensures { OnOk result (out.new.items ≡ out.old.items ++ bytes.now) }
{
    out.extend_from_slice(bytes)?;
    Ok(())
}
