//! The lines on what was asked for: words of no form, a file that wasn't fetched, what isn't built yet.
ghost use Rattle.std.specs.Prelude.{[], ◌∷◌};
ghost use Rattle.rt_lines.specs.Said.{SaysLine};
ghost use Rattle.rt_lines.specs.Lines.{line, usage_line, unfetched_line, not_built_line, infeasible_line};

use crate::pieces::{Piece, say_pieces};
use rt_base::Axis;
use rt_desk::{Desk, DeskError};

/// Says the line for words that are of none of the forms. Errors are those of `say_pieces`.
pub fn say_usage<D: Desk>(desk: &mut D) -> Result<(), DeskError>
    ensures { SaysLine (D.seen desk.old) (D.seen desk.new) usage_line result }
{
    say_pieces(
        desk,
        &[
            Piece::Word(
                "usage: retarget or check SOURCE STABLE TTABLE SIZES OUT CERT, or make N OUT",
            ),
            Piece::Word("\n"),
        ],
    )
}

/// Says `not built`: the files ask for what isn't built yet. Errors are those of `say_pieces`.
pub fn say_not_built<D: Desk>(desk: &mut D) -> Result<(), DeskError>
    ensures { SaysLine (D.seen desk.old) (D.seen desk.new) not_built_line result }
{
    say_pieces(desk, &[Piece::Word("not built"), Piece::Word("\n")])
}

/// Says `infeasible across` or `infeasible upwards`: no positions meet the template of the axis. Errors are those of `say_pieces`.
pub fn say_infeasible<D: Desk>(desk: &mut D, axis: Axis) -> Result<(), DeskError>
    ensures { SaysLine (D.seen desk.old) (D.seen desk.new) (infeasible_line axis) result }
{
    match axis {
        Axis::Across => say_pieces(desk, &[Piece::Word("infeasible across"), Piece::Word("\n")]),
        Axis::Upwards => say_pieces(
            desk,
            &[Piece::Word("infeasible upwards"), Piece::Word("\n")],
        ),
    }
}

// Says a word and a name behind it.
fn say_named<'a, D: Desk>(desk: &mut D, word: &'a str, name: &'a str) -> Result<(), DeskError>
    ensures { SaysLine (D.seen desk.old) (D.seen desk.new) (line (word.now ∷ name.now ∷ [])) result }
{
    say_pieces(
        desk,
        &[Piece::Word(word), Piece::Word(name), Piece::Word("\n")],
    )
}

/// Says `read fault: NAME`, `missing: NAME` or `too long: NAME`: why the file of that name wasn't fetched. Want of memory
/// has no line, and nothing is said of it. Errors are those of `say_pieces`.
pub fn say_unfetched<D: Desk>(desk: &mut D, error: &DeskError, name: &str) -> Result<(), DeskError>
    ensures { SaysLine (D.seen desk.old) (D.seen desk.new) (unfetched_line error.now name.now) result }
{
    match error {
        DeskError::Failed => say_named(desk, "read fault: ", name),
        DeskError::Missing => say_named(desk, "missing: ", name),
        DeskError::TooLong => say_named(desk, "too long: ", name),
        DeskError::OutOfMemory => say_pieces(desk, &[]),
    }
}
