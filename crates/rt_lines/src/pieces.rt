//! The pieces of a line, and how they are said one after another.
ghost use Rattle.rt_desk.specs.Desk.{Says};
ghost use Rattle.rt_lines.specs.Said.{piece_text, text_of, SaysLine};

use itoa::Buffer;
use rt_base::Text;
use rt_desk::{Desk, DeskError};

/// A piece of a line.
#[derive(Drop)]
pub enum Piece<'a> {
    /// Words of the program.
    Word(&'a str),
    /// A name that the files give, as a key of a table or the name of a mask.
    Name(&'a Text),
    /// The number of a layer or of a data type, in decimal digits with `-` before them where it is below 0.
    Layer(&'a i16),
    /// A coordinate or a length, in decimal digits with `-` before them where it is below 0.
    Number(&'a i64),
    /// A count or an offset in decimal digits.
    Count(u64),
}

/// Says the pieces one after another, each in one call of the desk; after a piece that fails no more is said. It takes
/// no memory and changes no file. (This project's own.)
///
/// `Failed` comes only where the desk's count of faults of `say` rose, and `OutOfMemory` where the desk had no memory for
/// a piece; then a first part of the text was said. There is no other error.
pub fn say_pieces<D: Desk>(desk: &mut D, pieces: &[Piece<'_>]) -> Result<(), DeskError>
    ensures { SaysLine (D.seen desk.old) (D.seen desk.new) (text_of pieces.now) result }
{
    for piece in pieces {
        say_piece(desk, piece)?;
    }
    Ok(())
}

// Says the piece in one call.
fn say_piece<D: Desk>(desk: &mut D, piece: &Piece<'_>) -> Result<(), DeskError>
    ensures { Says (D.seen desk.old) (D.seen desk.new) (piece_text piece.now) result }
{
    let mut digits = Buffer::new();
    match piece {
        Piece::Word(word) => desk.say(word.as_bytes()),
        Piece::Name(name) => desk.say(name.as_slice()),
        Piece::Layer(number) => desk.say(digits.format(**number).as_bytes()),
        Piece::Number(number) => desk.say(digits.format(**number).as_bytes()),
        Piece::Count(count) => desk.say(digits.format(*count).as_bytes()),
    }
}
