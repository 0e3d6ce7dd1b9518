//! The words of causes and of kinds of rules, as lines spell them.
ghost use Rattle.std.specs.Prelude.{◌≡◌};
ghost use Rattle.rt_lines.specs.Lines.{stream_cause, table_cause, table_word, rule_word};

use gds_grammar::Cause;
use rt_tech::{RuleName, TableCause, Which};

// The cause in a stream, as its variant is spelled.
pub(crate) fn stream_cause(cause: &Cause) -> &'static str
    ensures { result.now ≡ stream_cause cause.now }
{
    match cause {
        Cause::Short => "Short",
        Cause::OddLength => "OddLength",
        Cause::LengthBelow4 => "LengthBelow4",
        Cause::UnknownType => "UnknownType",
        Cause::WrongData => "WrongData",
        Cause::Unexpected { .. } => "Unexpected",
        Cause::BadText => "BadText",
        Cause::NotClosed => "NotClosed",
        Cause::DuplicateName => "DuplicateName",
    }
}

// The cause in a table or a sizes file, as its variant is spelled.
pub(crate) fn table_cause(cause: &TableCause) -> &'static str
    ensures { result.now ≡ table_cause cause.now }
{
    match cause {
        TableCause::Missing => "Missing",
        TableCause::Form => "Form",
        TableCause::Range => "Range",
        TableCause::Duplicate => "Duplicate",
        TableCause::Name => "Name",
        TableCause::Role => "Role",
        TableCause::Clash => "Clash",
        TableCause::Unknown => "Unknown",
    }
}

// Which of the two tables.
pub(crate) fn table_word(which: &Which) -> &'static str
    ensures { result.now ≡ table_word which.now }
{
    match which {
        Which::Source => "source table: ",
        Which::Target => "target table: ",
    }
}

// The kind of a rule, before the names of its masks.
pub(crate) fn rule_word(rule: &RuleName) -> &'static str
    ensures { result.now ≡ rule_word rule.now }
{
    match rule {
        RuleName::Width(_) => "width",
        RuleName::Space(_) => "space",
        RuleName::Size(_) => "size",
        RuleName::Enclose(_) => "enclose",
        RuleName::Cap => "cap",
        RuleName::Ext => "ext",
        RuleName::Cross => "cross",
        RuleName::Apart(_) => "apart",
    }
}
