//! The lines on the source: its stream, its flattening, its shapes, and the rules that it breaks.
ghost use Rattle.std.specs.List.{flat_map};
ghost use Rattle.rt_lines.specs.Said.{SaysLine};
ghost use Rattle.rt_lines.specs.Lines.{bad_stream_line, unsupported_line, no_such_structure_line, named, cyclic_line, unmapped_layer_line, array_step_line, coordinate_range_line, too_deep_line, line, source_shape_line, breach_parts, source_rule_line, too_many_line};

use crate::pieces::{Piece, say_pieces};
use crate::words::{rule_word, stream_cause};
use gds_grammar::Cause;
use rt_base::{Cell, Rect, Text};
use rt_desk::{Desk, DeskError};
use rt_tech::RuleName;

/// A rule of the source's table that its layout breaks, and between which cells. Lengths are database units of the
/// source.
#[derive(Drop)]
pub struct BrokenRule<'a> {
    /// The rule.
    pub rule: RuleName,
    /// The names of its masks: one, two or none.
    pub names: &'a [Text],
    /// One of the two cells.
    pub p: Cell,
    /// The other one.
    pub q: Cell,
    /// The extent or the gap that was found.
    pub found: i64,
    /// What the rule asks for: of a size the one that it allows, of any other rule the least one.
    pub needed: i64,
}

/// Says `bad stream at OFFSET: CAUSE`: the bytes stop being a stream at the offset, counted in bytes from 0. Errors
/// are those of `say_pieces`.
pub fn say_bad_stream<D: Desk>(desk: &mut D, offset: u64, cause: &Cause) -> Result<(), DeskError>
    ensures { SaysLine (D.seen desk.old) (D.seen desk.new) (bad_stream_line offset cause.now) result }
{
    say_pieces(
        desk,
        &[
            Piece::Word("bad stream at "),
            Piece::Count(offset),
            Piece::Word(": "),
            Piece::Word(stream_cause(cause)),
            Piece::Word("\n"),
        ],
    )
}

/// Says `unsupported at OFFSET: ODD`: the element at the offset isn't taken, for what the word says. Errors are those
/// of `say_pieces`.
pub fn say_unsupported<D: Desk>(desk: &mut D, offset: u64, odd: &str) -> Result<(), DeskError>
    ensures { SaysLine (D.seen desk.old) (D.seen desk.new) (unsupported_line offset odd.now) result }
{
    say_pieces(
        desk,
        &[
            Piece::Word("unsupported at "),
            Piece::Count(offset),
            Piece::Word(": "),
            Piece::Word(odd),
            Piece::Word("\n"),
        ],
    )
}

/// Says `no such structure: NAME`. Errors are those of `say_pieces`.
pub fn say_no_such_structure<D: Desk>(desk: &mut D, name: &Text) -> Result<(), DeskError>
    ensures { SaysLine (D.seen desk.old) (D.seen desk.new) (no_such_structure_line name.now) result }
{
    say_pieces(
        desk,
        &[
            Piece::Word("no such structure: "),
            Piece::Name(name),
            Piece::Word("\n"),
        ],
    )
}

/// Says `cyclic:` and then each name behind a space: structures that reference each other in a ring. Errors are those of
/// `say_pieces`.
pub fn say_cyclic<D: Desk>(desk: &mut D, names: &[Text]) -> Result<(), DeskError>
    ensures { SaysLine (D.seen desk.old) (D.seen desk.new) (cyclic_line names.now) result }
{
    say_pieces(desk, &[Piece::Word("cyclic:")])?;
    say_names(desk, names)?;
    say_pieces(desk, &[Piece::Word("\n")])
}

// Says each name behind a space.
fn say_names<D: Desk>(desk: &mut D, names: &[Text]) -> Result<(), DeskError>
    ensures { SaysLine (D.seen desk.old) (D.seen desk.new) (flat_map named names.now) result }
{
    for name in names {
        say_pieces(desk, &[Piece::Word(" "), Piece::Name(name)])?;
    }
    Ok(())
}

/// Says `unmapped layer: L N`: the source table neither maps nor ignores the layer and the data, text or box type
/// beside it. Errors are those of `say_pieces`.
pub fn say_unmapped_layer<D: Desk>(desk: &mut D, layer: &(i16, i16)) -> Result<(), DeskError>
    ensures { SaysLine (D.seen desk.old) (D.seen desk.new) (unmapped_layer_line layer.now.0 layer.now.1) result }
{
    say_pieces(
        desk,
        &[
            Piece::Word("unmapped layer: "),
            Piece::Layer(&layer.0),
            Piece::Word(" "),
            Piece::Layer(&layer.1),
            Piece::Word("\n"),
        ],
    )
}

/// Says `array step at OFFSET`: the points of the array at the offset give no whole step. Errors are those of
/// `say_pieces`.
pub fn say_array_step<D: Desk>(desk: &mut D, offset: u64) -> Result<(), DeskError>
    ensures { SaysLine (D.seen desk.old) (D.seen desk.new) (array_step_line offset) result }
{
    say_pieces(
        desk,
        &[
            Piece::Word("array step at "),
            Piece::Count(offset),
            Piece::Word("\n"),
        ],
    )
}

/// Says `coordinate range at OFFSET`: a coordinate of the element at the offset is placed too far out. Errors are those
/// of `say_pieces`.
pub fn say_coordinate_range<D: Desk>(desk: &mut D, offset: u64) -> Result<(), DeskError>
    ensures { SaysLine (D.seen desk.old) (D.seen desk.new) (coordinate_range_line offset) result }
{
    say_pieces(
        desk,
        &[
            Piece::Word("coordinate range at "),
            Piece::Count(offset),
            Piece::Word("\n"),
        ],
    )
}

/// Says `too deep`: a chain of references is too long. Errors are those of `say_pieces`.
pub fn say_too_deep<D: Desk>(desk: &mut D) -> Result<(), DeskError>
    ensures { SaysLine (D.seen desk.old) (D.seen desk.new) too_deep_line result }
{
    say_pieces(desk, &[Piece::Word("too deep"), Piece::Word("\n")])
}

/// Says `source shape: SHAPE at X1 Y1 X2 Y2`: the source has the shape that the word says, which a sound one doesn't have, and the rectangle shows it; its
/// sides are in database units of the source. Errors are those of `say_pieces`.
pub fn say_source_shape<'a, D: Desk>(
    desk: &mut D,
    shape: &'a str,
    rect: &'a Rect,
) -> Result<(), DeskError>
    ensures { SaysLine (D.seen desk.old) (D.seen desk.new) (source_shape_line shape.now rect.now) result }
{
    say_pieces(
        desk,
        &[
            Piece::Word("source shape: "),
            Piece::Word(shape),
            Piece::Word(" at "),
            Piece::Number(&rect.x1),
            Piece::Word(" "),
            Piece::Number(&rect.y1),
            Piece::Word(" "),
            Piece::Number(&rect.x2),
            Piece::Word(" "),
            Piece::Number(&rect.y2),
            Piece::Word("\n"),
        ],
    )
}

/// Says `source rule: RULE at PX PY and QX QY: found F, needed G`, where RULE is the kind of the rule and behind it the names of its masks, as
/// `width M`. Errors are those of `say_pieces`.
pub fn say_source_rule<D: Desk>(desk: &mut D, broken: &BrokenRule<'_>) -> Result<(), DeskError>
    ensures { SaysLine (D.seen desk.old) (D.seen desk.new) (source_rule_line broken.now.rule broken.now.names.now broken.now.p broken.now.q broken.now.found broken.now.needed) result }
{
    say_pieces(
        desk,
        &[
            Piece::Word("source rule: "),
            Piece::Word(rule_word(&broken.rule)),
        ],
    )?;
    say_names(desk, broken.names)?;
    say_breach(desk, broken)
}

// Says between which cells a rule is broken, and what was found and needed.
fn say_breach<D: Desk>(desk: &mut D, broken: &BrokenRule<'_>) -> Result<(), DeskError>
    ensures { SaysLine (D.seen desk.old) (D.seen desk.new) (line (breach_parts broken.now.p broken.now.q broken.now.found broken.now.needed)) result }
{
    say_pieces(
        desk,
        &[
            Piece::Word(" at "),
            Piece::Number(&broken.p.x),
            Piece::Word(" "),
            Piece::Number(&broken.p.y),
            Piece::Word(" and "),
            Piece::Number(&broken.q.x),
            Piece::Word(" "),
            Piece::Number(&broken.q.y),
            Piece::Word(": found "),
            Piece::Number(&broken.found),
            Piece::Word(", needed "),
            Piece::Number(&broken.needed),
            Piece::Word("\n"),
        ],
    )
}

/// Says `too many: N WHAT`: there are so many of these, more than are taken. Errors are those of `say_pieces`.
pub fn say_too_many<D: Desk>(desk: &mut D, count: u64, what: &str) -> Result<(), DeskError>
    ensures { SaysLine (D.seen desk.old) (D.seen desk.new) (too_many_line count what.now) result }
{
    say_pieces(
        desk,
        &[
            Piece::Word("too many: "),
            Piece::Count(count),
            Piece::Word(" "),
            Piece::Word(what),
            Piece::Word("\n"),
        ],
    )
}
