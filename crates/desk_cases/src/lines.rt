//! Each line is said as the formats spell it, and nothing more of it after a fault.
use gds_grammar::Cause;
use rt_base::{Cell, List, Rect, Text};
use rt_desk::{DeskError, MemoryDesk};
use rt_lines::{
    BrokenRule, say_array_step, say_bad_stream, say_coordinate_range, say_cyclic, say_no_axis,
    say_no_such_structure, say_not_built, say_sizes_fault, say_sizes_not_toml, say_source_rule,
    say_source_shape, say_table_fault, say_table_not_toml, say_tables_differ, say_too_deep,
    say_too_many, say_unfetched, say_unmapped_layer, say_unsupported, say_usage,
};
use rt_tech::{RuleName, TableCause, Which};
use std::alloc::Global;
use std::test::Fail;

// A line to say, and what is to be said.
#[derive(Drop)]
enum Line {
    Usage,
    BadStream(u64, Cause),
    TableFault(Which, TableCause),
    TableNotToml(Which),
    TablesDiffer,
    SizesFault(TableCause),
    SizesNotToml,
    NoAxis,
    Unsupported(u64, &'static str),
    NoSuchStructure,
    Cyclic,
    UnmappedLayer(i16, i16),
    ArrayStep(u64),
    CoordinateRange(u64),
    TooDeep,
    SourceShape(&'static str),
    SourceRule(RuleName, Cell, Cell, i64, i64),
    TooMany(u64, &'static str),
    Unfetched(DeskError),
    NotBuilt,
}

// The names that lines give.
#[derive(Drop)]
struct Names {
    one: Text,
    masks: [Text; 2],
    ring: Vec<Text>,
}

static LINES: [(Line, &'static str); 41] = [
    (
        Line::Usage,
        "usage: retarget or check SOURCE STABLE TTABLE SIZES OUT CERT, or make N OUT\n",
    ),
    (
        Line::BadStream(114, Cause::Short),
        "bad stream at 114: Short\n",
    ),
    (
        Line::BadStream(0, Cause::OddLength),
        "bad stream at 0: OddLength\n",
    ),
    (
        Line::BadStream(98, Cause::LengthBelow4),
        "bad stream at 98: LengthBelow4\n",
    ),
    (
        Line::BadStream(98, Cause::UnknownType),
        "bad stream at 98: UnknownType\n",
    ),
    (
        Line::BadStream(7, Cause::WrongData),
        "bad stream at 7: WrongData\n",
    ),
    (
        Line::BadStream(170, Cause::Unexpected { code: 1 }),
        "bad stream at 170: Unexpected\n",
    ),
    (
        Line::BadStream(8, Cause::BadText),
        "bad stream at 8: BadText\n",
    ),
    (
        Line::BadStream(166, Cause::NotClosed),
        "bad stream at 166: NotClosed\n",
    ),
    (
        Line::BadStream(18_446_744_073_709_551_615, Cause::DuplicateName),
        "bad stream at 18446744073709551615: DuplicateName\n",
    ),
    (
        Line::TableFault(Which::Source, TableCause::Missing),
        "source table: apart: Missing\n",
    ),
    (
        Line::TableFault(Which::Source, TableCause::Form),
        "source table: apart: Form\n",
    ),
    (
        Line::TableFault(Which::Target, TableCause::Range),
        "target table: apart: Range\n",
    ),
    (
        Line::TableFault(Which::Target, TableCause::Duplicate),
        "target table: apart: Duplicate\n",
    ),
    (
        Line::TableFault(Which::Target, TableCause::Name),
        "target table: apart: Name\n",
    ),
    (Line::SizesFault(TableCause::Role), "sizes: apart: Role\n"),
    (Line::SizesFault(TableCause::Clash), "sizes: apart: Clash\n"),
    (
        Line::SizesFault(TableCause::Unknown),
        "sizes: apart: Unknown\n",
    ),
    (
        Line::TableNotToml(Which::Source),
        "source table: not toml\n",
    ),
    (
        Line::TableNotToml(Which::Target),
        "target table: not toml\n",
    ),
    (Line::TablesDiffer, "tables differ: apart\n"),
    (Line::SizesNotToml, "sizes: not toml\n"),
    (Line::NoAxis, "no axis\n"),
    (
        Line::Unsupported(200, "BoxElement"),
        "unsupported at 200: BoxElement\n",
    ),
    (Line::NoSuchStructure, "no such structure: apart\n"),
    (Line::Cyclic, "cyclic: A B\n"),
    (
        Line::UnmappedLayer(9, -32_768),
        "unmapped layer: 9 -32768\n",
    ),
    (Line::ArrayStep(12), "array step at 12\n"),
    (Line::CoordinateRange(34), "coordinate range at 34\n"),
    (Line::TooDeep, "too deep\n"),
    (
        Line::SourceShape("CutLower"),
        "source shape: CutLower at -9 8 10 11\n",
    ),
    (
        Line::SourceRule(
            RuleName::Width(0),
            Cell { x: -1, y: 2 },
            Cell { x: 3, y: -4 },
            2,
            3,
        ),
        "source rule: width via at -1 2 and 3 -4: found 2, needed 3\n",
    ),
    (
        Line::SourceRule(
            RuleName::Space(0),
            Cell { x: 0, y: 0 },
            Cell { x: 5, y: 0 },
            -9,
            10,
        ),
        "source rule: space via at 0 0 and 5 0: found -9, needed 10\n",
    ),
    (
        Line::SourceRule(
            RuleName::Enclose(0),
            Cell { x: 0, y: 0 },
            Cell { x: -5, y: 0 },
            1,
            2,
        ),
        "source rule: enclose via m1 at 0 0 and -5 0: found 1, needed 2\n",
    ),
    (
        Line::SourceRule(
            RuleName::Cap,
            Cell { x: 0, y: 7 },
            Cell { x: 0, y: 8 },
            1,
            2,
        ),
        "source rule: cap at 0 7 and 0 8: found 1, needed 2\n",
    ),
    (Line::TooMany(60_000, "items"), "too many: 60000 items\n"),
    (Line::TooMany(9, "strips"), "too many: 9 strips\n"),
    (Line::Unfetched(DeskError::Failed), "read fault: cell.gds\n"),
    (Line::Unfetched(DeskError::Missing), "missing: cell.gds\n"),
    (Line::Unfetched(DeskError::TooLong), "too long: cell.gds\n"),
    (Line::NotBuilt, "not built\n"),
];

// Says the line, with the names where it names something.
fn say(desk: &mut MemoryDesk, line: &Line, names: &Names) -> Result<(), DeskError> {
    match line {
        Line::Usage => say_usage(desk),
        Line::BadStream(offset, cause) => say_bad_stream(desk, *offset, cause),
        Line::TableFault(which, cause) => say_table_fault(desk, which, &names.one, cause),
        Line::TableNotToml(which) => say_table_not_toml(desk, which),
        Line::TablesDiffer => say_tables_differ(desk, &names.one),
        Line::SizesFault(cause) => say_sizes_fault(desk, &names.one, cause),
        Line::SizesNotToml => say_sizes_not_toml(desk),
        Line::NoAxis => say_no_axis(desk),
        _ => say_of_source(desk, line, names),
    }
}

// The names of the rule's masks.
fn names_of<'a>(rule: &RuleName, names: &'a Names) -> &'a [Text] {
    match rule {
        RuleName::Enclose(_) => &names.masks[..2],
        RuleName::Cap => &[],
        _ => &names.masks[..1],
    }
}

// Says a line about the source.
fn say_of_source(desk: &mut MemoryDesk, line: &Line, names: &Names) -> Result<(), DeskError> {
    match line {
        Line::Unsupported(offset, odd) => say_unsupported(desk, *offset, odd),
        Line::NoSuchStructure => say_no_such_structure(desk, &names.one),
        Line::Cyclic => say_cyclic(desk, &names.ring),
        Line::UnmappedLayer(layer, number) => say_unmapped_layer(desk, &(*layer, *number)),
        Line::ArrayStep(offset) => say_array_step(desk, *offset),
        Line::CoordinateRange(offset) => say_coordinate_range(desk, *offset),
        Line::TooDeep => say_too_deep(desk),
        Line::SourceShape(shape) => {
            let rect = Rect {
                x1: -9,
                y1: 8,
                x2: 10,
                y2: 11,
            };
            say_source_shape(desk, shape, &rect)
        }
        Line::SourceRule(rule, p, q, found, needed) => {
            let broken = BrokenRule {
                rule: *rule,
                names: names_of(rule, names),
                p: *p,
                q: *q,
                found: *found,
                needed: *needed,
            };
            say_source_rule(desk, &broken)
        }
        Line::TooMany(count, what) => say_too_many(desk, *count, what),
        Line::Unfetched(error) => say_unfetched(desk, error, "cell.gds"),
        _ => say_not_built(desk),
    }
}

fn text(alloc: Global, bytes: &[u8]) -> Result<Text, Fail> {
    let bytes = Vec::from_slice(alloc, bytes)?;
    Ok(Text::of(List::of(bytes)).ok_or("not a text")?)
}

fn some_names(alloc: Global) -> Result<Names, Fail> {
    let masks = [text(alloc, b"via")?, text(alloc, b"m1")?];
    let mut ring = Vec::new(alloc);
    for bytes in [b"A", b"B"] {
        ring.push(text(alloc, bytes)?)?;
    }
    Ok(Names {
        one: text(alloc, b"apart")?,
        masks,
        ring,
    })
}

// Whether the line is said as it is spelled, on a desk on which nothing was said.
fn is_said(alloc: Global, line: &Line, names: &Names, spelled: &str) -> bool {
    let mut desk = MemoryDesk::new(alloc, Vec::new(alloc));
    say(&mut desk, line, names).is_ok() && desk.said() == spelled.as_bytes()
}

#[test]
fn says_each_line(rt: HostRuntime) -> Result<(), Fail> {
    let names = some_names(rt.alloc())?;
    for (line, spelled) in &LINES {
        assert!(rt; is_said(rt.alloc(), line, &names, spelled), "{spelled}");
    }
    Ok(())
}

// What is said of a line whose first, second, .. call fails.
static PARTS: [&str; 5] = [
    "",
    "source table: ",
    "source table: apart",
    "source table: apart: ",
    "source table: apart: Range",
];

// Whether no more than this part is said where the call of the number fails.
fn stops(alloc: Global, names: &Names, nth: u64, part: &str) -> Result<bool, Fail> {
    let mut desk = MemoryDesk::new(alloc, Vec::new(alloc));
    desk.fail_at(nth)?;
    let answer = say_table_fault(&mut desk, &Which::Source, &names.one, &TableCause::Range);
    Ok(answer == Err(DeskError::Failed) && desk.said() == part.as_bytes())
}

#[test]
fn says_no_more_after_a_fault(rt: HostRuntime) -> Result<(), Fail> {
    let names = some_names(rt.alloc())?;
    for (nth, part) in PARTS.iter().enumerate() {
        assert!(rt; stops(rt.alloc(), &names, nth as u64, part)?, "call {nth}");
    }
    Ok(())
}
