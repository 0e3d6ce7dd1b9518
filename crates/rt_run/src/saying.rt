//! The line of each answer.
ghost use Rattle.std.specs.Prelude.{◌≡◌, [], MatchBool};
ghost use Rattle.rt_lines.specs.Said.{SaysLine};
ghost use Rattle.rt_run.specs.Answers.{line_of, line_of_refusal, odd_word as word_of, shape_word as shape_of, what_word as what_of};

use crate::answer::{Answer, Refusal};
use gds_flat::Odd;
use rt_desk::{Desk, DeskError};
use rt_lines::{
    BrokenRule, say_array_step, say_bad_stream, say_coordinate_range, say_cyclic, say_infeasible,
    say_no_such_structure, say_not_built, say_pieces, say_sizes_fault, say_sizes_not_toml,
    say_source_rule, say_source_shape, say_table_fault, say_table_not_toml, say_tables_differ,
    say_too_deep, say_too_many, say_unfetched, say_unmapped_layer, say_unsupported, say_usage,
};
use rt_retarget::{Fault, What};
use rt_view::Shape;

/// Whether an answer has a line: all have but that OUT was stored, that it wasn't, and want of memory.
pub fn has_line(answer: &Answer<'_>) -> bool
    ensures { MatchBool result (line_of answer.now ≡ [] → ⊥) (line_of answer.now ≡ []) }
{
    match answer {
        Answer::Usage => true,
        Answer::Refused(refusal) => refusal_has_line(refusal),
        Answer::Infeasible(_) => true,
        Answer::NotFetched(unfetched) => unfetched.error != DeskError::OutOfMemory,
        Answer::Done | Answer::NotStored | Answer::OutOfMemory => false,
    }
}

// Whether a refusal has a line: all have but want of memory.
fn refusal_has_line(refusal: &Refusal) -> bool
    ensures { MatchBool result (line_of_refusal refusal.now.fault refusal.now.names ≡ [] → ⊥) (line_of_refusal refusal.now.fault refusal.now.names ≡ []) }
{
    match refusal.fault {
        Fault::OutOfMemory => false,
        _ => true,
    }
}

/// Says the line of an answer, or nothing where it has none: where OUT was stored, or wasn't, or there was no memory.
/// Errors are those of a say: `Failed` only where the count of faults rose, `OutOfMemory`; then a first part was said.
pub fn say_answer<D: Desk>(answer: &Answer<'_>, desk: &mut D) -> Result<(), DeskError>
    ensures { SaysLine (D.seen desk.old) (D.seen desk.new) (line_of answer.now) result }
{
    match answer {
        Answer::Usage => say_usage(desk),
        Answer::Refused(refusal) => say_refusal(refusal, desk),
        Answer::Infeasible(axis) => say_infeasible(desk, *axis),
        Answer::NotFetched(unfetched) => say_unfetched(desk, &unfetched.error, unfetched.name),
        Answer::Done | Answer::NotStored | Answer::OutOfMemory => say_nothing(desk),
    }
}

// Says the line of a refusal.
fn say_refusal<D: Desk>(refusal: &Refusal, desk: &mut D) -> Result<(), DeskError>
    ensures { SaysLine (D.seen desk.old) (D.seen desk.new) (line_of_refusal refusal.now.fault refusal.now.names) result }
{
    match &refusal.fault {
        Fault::TableToml { which } => say_table_not_toml(desk, which),
        Fault::BadTable { which, key, cause } => say_table_fault(desk, which, key, cause),
        Fault::TablesDiffer { key } => say_tables_differ(desk, key),
        Fault::SizesToml => say_sizes_not_toml(desk),
        Fault::BadSizes { key, cause } => say_sizes_fault(desk, key, cause),
        Fault::BadStream { offset, cause } => say_bad_stream(desk, *offset, cause),
        Fault::Unsupported { offset, odd } => say_unsupported(desk, *offset, odd_word(odd)),
        Fault::NoSuchStructure { name } => say_no_such_structure(desk, name),
        Fault::Cyclic { names } => say_cyclic(desk, names.as_slice()),
        Fault::UnmappedLayer { layer, number } => say_unmapped_layer(desk, &(*layer, *number)),
        Fault::ArrayStep { offset } => say_array_step(desk, *offset),
        Fault::CoordinateRange { offset } => say_coordinate_range(desk, *offset),
        Fault::TooDeep => say_too_deep(desk),
        Fault::TooMany { what, count } => say_too_many(desk, *count, what_word(what)),
        Fault::SourceShape { shape, rect } => say_source_shape(desk, shape_word(shape), rect),
        Fault::SourceRule {
            rule,
            p,
            q,
            found,
            needed,
        } => say_source_rule(
            desk,
            &BrokenRule {
                rule: *rule,
                names: refusal.names.as_slice(),
                p: *p,
                q: *q,
                found: *found,
                needed: *needed,
            },
        ),
        Fault::NotBuilt => say_not_built(desk),
        Fault::OutOfMemory => say_nothing(desk),
    }
}

// Of what there are too many, as a word.
fn what_word(what: &What) -> &'static str
    ensures { result.now ≡ what_of what.now }
{
    match what {
        What::Items => "items",
        What::Strips => "strips",
    }
}

// What isn't taken in an element, as a word.
fn odd_word(odd: &Odd) -> &'static str
    ensures { result.now ≡ word_of odd.now }
{
    match odd {
        Odd::PathType => "PathType",
        Odd::PathWidth => "PathWidth",
        Odd::BoxElement => "BoxElement",
        Odd::Magnification => "Magnification",
        Odd::Angle => "Angle",
        Odd::Absolute => "Absolute",
        Odd::Slanted => "Slanted",
    }
}

// A shape that a sound source doesn't have, as a word.
fn shape_word(shape: &Shape) -> &'static str
    ensures { result.now ≡ shape_of shape.now }
{
    match shape {
        Shape::CutShape => "CutShape",
        Shape::CutUpper => "CutUpper",
        Shape::CutLower => "CutLower",
        Shape::Background => "Background",
        Shape::BentChannel => "BentChannel",
        Shape::NoKind => "NoKind",
        Shape::TapChannel => "TapChannel",
        Shape::StrayLabel => "StrayLabel",
    }
}

// Says nothing.
fn say_nothing<D: Desk>(desk: &mut D) -> Result<(), DeskError>
    ensures { SaysLine (D.seen desk.old) (D.seen desk.new) [] result }
{
    say_pieces(desk, &[])
}
