//! The lines on the two rule tables and the sizes file.
ghost use Rattle.std.specs.Prelude.{[], ◌∷◌, codes};
ghost use Rattle.rt_lines.specs.Said.{SaysLine};
ghost use Rattle.rt_lines.specs.Lines.{line, table_cause, table_fault_line, table_not_toml_line, tables_differ_line, sizes_fault_line, sizes_not_toml_line, no_axis_line};

use crate::pieces::{Piece, say_pieces};
use crate::words::{table_cause, table_word};
use rt_base::Text;
use rt_desk::{Desk, DeskError};
use rt_tech::{TableCause, Which};

/// Says `source table: KEY: CAUSE` or `target table: KEY: CAUSE`: a table isn't valid at the key. Errors are those of
/// `say_pieces`.
pub fn say_table_fault<D: Desk>(
    desk: &mut D,
    which: &Which,
    key: &Text,
    cause: &TableCause,
) -> Result<(), DeskError>
    ensures { SaysLine (D.seen desk.old) (D.seen desk.new) (table_fault_line which.now key.now cause.now) result }
{
    say_fault(desk, table_word(which), key, cause)
}

/// Says `source table: not toml` or `target table: not toml`. Errors are those of `say_pieces`.
pub fn say_table_not_toml<D: Desk>(desk: &mut D, which: &Which) -> Result<(), DeskError>
    ensures { SaysLine (D.seen desk.old) (D.seen desk.new) (table_not_toml_line which.now) result }
{
    say_pieces(
        desk,
        &[
            Piece::Word(table_word(which)),
            Piece::Word("not toml"),
            Piece::Word("\n"),
        ],
    )
}

/// Says `tables differ: KEY`: the two tables differ in form at the key. Errors are those of `say_pieces`.
pub fn say_tables_differ<D: Desk>(desk: &mut D, key: &Text) -> Result<(), DeskError>
    ensures { SaysLine (D.seen desk.old) (D.seen desk.new) (tables_differ_line key.now) result }
{
    say_pieces(
        desk,
        &[
            Piece::Word("tables differ: "),
            Piece::Name(key),
            Piece::Word("\n"),
        ],
    )
}

/// Says `sizes: KEY: CAUSE`: the sizes file isn't valid at the key. Errors are those of `say_pieces`.
pub fn say_sizes_fault<D: Desk>(
    desk: &mut D,
    key: &Text,
    cause: &TableCause,
) -> Result<(), DeskError>
    ensures { SaysLine (D.seen desk.old) (D.seen desk.new) (sizes_fault_line key.now cause.now) result }
{
    say_fault(desk, "sizes: ", key, cause)
}

// Says that the file isn't valid at a key, and for what cause.
fn say_fault<'a, D: Desk>(
    desk: &mut D,
    file: &'a str,
    at: &'a Text,
    cause: &TableCause,
) -> Result<(), DeskError>
    ensures { SaysLine (D.seen desk.old) (D.seen desk.new) (line (file.now ∷ at.now ∷ codes ": " ∷ table_cause cause.now ∷ [])) result }
{
    say_pieces(
        desk,
        &[
            Piece::Word(file),
            Piece::Name(at),
            Piece::Word(": "),
            Piece::Word(table_cause(cause)),
            Piece::Word("\n"),
        ],
    )
}

/// Says `sizes: not toml`. Errors are those of `say_pieces`.
pub fn say_sizes_not_toml<D: Desk>(desk: &mut D) -> Result<(), DeskError>
    ensures { SaysLine (D.seen desk.old) (D.seen desk.new) sizes_not_toml_line result }
{
    say_pieces(desk, &[Piece::Word("sizes: not toml"), Piece::Word("\n")])
}

/// Says `no axis`: the source has no axis to mirror at. Errors are those of `say_pieces`.
pub fn say_no_axis<D: Desk>(desk: &mut D) -> Result<(), DeskError>
    ensures { SaysLine (D.seen desk.old) (D.seen desk.new) no_axis_line result }
{
    say_pieces(desk, &[Piece::Word("no axis"), Piece::Word("\n")])
}
