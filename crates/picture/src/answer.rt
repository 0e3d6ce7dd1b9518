//! How a run ends: its status and its line.

use gds_flat::FlatError;
use gds_stream::StreamError;
use rt_base::Text;
use rt_keys::TableError;
use std::{fmt, str};

/// The exit status of the program.
#[derive(Clone, Copy, Debug, PartialEq, Eq, Drop)]
pub struct Status(pub u8);

/// How a run ends.
#[derive(Drop)]
pub enum Answer<'a> {
    /// The picture is stored.
    Done {
        /// Its name.
        picture: &'a str,
        /// How many rectangles it has.
        rectangles: usize,
        /// On how many masks they are.
        masks: usize,
    },
    /// The words are of no form.
    Usage,
    /// The picture isn't stored.
    NotStored {
        /// Its name.
        picture: &'a str,
    },
    /// There is nothing to be drawn.
    Refused(Refusal<'a>),
}

/// Why there is nothing to be drawn.
#[derive(Drop)]
pub enum Refusal<'a> {
    /// A file can't be read.
    Unread {
        /// The file.
        name: &'a str,
    },
    /// A file is longer than what is read.
    TooLong {
        /// The file.
        name: &'a str,
    },
    /// The source is no stream.
    NoStream {
        /// The file.
        name: &'a str,
        /// Where and why.
        error: StreamError,
    },
    /// The table is no rule table.
    NoTable {
        /// The file.
        name: &'a str,
        /// At which key and why.
        error: TableError,
    },
    /// The word for the cell can't be a structure's name.
    NoName {
        /// The file.
        name: &'a str,
        /// The word.
        cell: &'a str,
    },
    /// The cell isn't flattened.
    NotFlat {
        /// The file.
        name: &'a str,
        /// Why.
        error: FlatError,
    },
    /// There was no memory.
    OutOfMemory,
}

impl<'a> Answer<'a> {
    /// The exit status of the answer.
    pub fn status(&self) -> Status {
        match self {
            Answer::Done { .. } => Status(0),
            Answer::Usage => Status(2),
            Answer::NotStored { .. } => Status(12),
            Answer::Refused(refusal) => Status(refusal.number()),
        }
    }
}

impl<'a> Refusal<'a> {
    // The exit status of the refusal.
    fn number(&self) -> u8 {
        match self {
            Refusal::Unread { .. } | Refusal::TooLong { .. } => 11,
            Refusal::NoStream { .. } => 3,
            Refusal::NoTable { .. } => 4,
            Refusal::NoName { .. } => 6,
            Refusal::NotFlat { error, .. } => flat_number(error),
            Refusal::OutOfMemory => 13,
        }
    }
}

// The status where the cell isn't flattened.
fn flat_number(error: &FlatError) -> u8 {
    match error {
        FlatError::TooMany { .. } => 14,
        _ => 6,
    }
}

/// The line of an answer, without its end.
impl<'a> fmt::Display for Answer<'a> {
    fn fmt<W: fmt::Write>(&self, f: &mut fmt::Formatter<W>) -> fmt::Result {
        match self {
            Answer::Done {
                picture,
                rectangles,
                masks,
            } => write!(
                f,
                "picture: {}: {rectangles} rectangle{} on {masks} mask{}",
                picture.escape_debug(),
                ending(*rectangles),
                ending(*masks)
            ),
            Answer::Usage => f.write_str("usage: picture SOURCE TABLE CELL PICTURE"),
            Answer::NotStored { picture } => {
                write!(f, "picture: can't write {}", picture.escape_debug())
            }
            Answer::Refused(refusal) => write!(f, "picture: {refusal}"),
        }
    }
}

// What is put behind the name of what there are so many of.
fn ending(count: usize) -> &'static str {
    if count == 1 { "" } else { "s" }
}

/// What a line says of a refusal.
impl<'a> fmt::Display for Refusal<'a> {
    fn fmt<W: fmt::Write>(&self, f: &mut fmt::Formatter<W>) -> fmt::Result {
        match self {
            Refusal::Unread { name } => write!(f, "can't read {}", name.escape_debug()),
            Refusal::TooLong { name } => write!(f, "{} is too long", name.escape_debug()),
            Refusal::NoStream { name, error } => {
                write!(f, "{} is no stream: {error}", name.escape_debug())
            }
            Refusal::NoTable { name, error } => write!(
                f,
                "{} is no rule table: {}",
                name.escape_debug(),
                TableCause(error)
            ),
            Refusal::NoName { name, cell } => write!(
                f,
                "{}: no structure {}",
                name.escape_debug(),
                cell.escape_debug()
            ),
            Refusal::NotFlat { name, error } => {
                write!(f, "{}: {}", name.escape_debug(), FlatCause(error))
            }
            Refusal::OutOfMemory => f.write_str("out of memory"),
        }
    }
}

// What a line says of a table.
#[derive(Drop)]
struct TableCause<'a>(&'a TableError);

impl<'a> fmt::Display for TableCause<'a> {
    fn fmt<W: fmt::Write>(&self, f: &mut fmt::Formatter<W>) -> fmt::Result {
        match self.0 {
            TableError::BadTable { key, cause } => write!(f, "{}: {cause:?}", words_of(key)),
            error => write!(f, "{error}"),
        }
    }
}

// What a line says of a cell that isn't flattened.
#[derive(Drop)]
struct FlatCause<'a>(&'a FlatError);

impl<'a> fmt::Display for FlatCause<'a> {
    fn fmt<W: fmt::Write>(&self, f: &mut fmt::Formatter<W>) -> fmt::Result {
        match self.0 {
            FlatError::NoSuchStructure { name } => write!(f, "no structure {}", words_of(name)),
            FlatError::Unsupported { odd, .. } => write!(f, "{}: {odd:?}", self.0),
            error => write!(f, "{error}"),
        }
    }
}

// A text as words. Its bytes are printable.
fn words_of(text: &Text) -> &str {
    str::from_utf8(text.as_slice()).unwrap_or("?")
}
