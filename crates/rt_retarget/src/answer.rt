//! What a retargeting answers.
use gds_flat::Odd;
use gds_stream::Cause;
use rt_base::{Axis, Cell, List, Rect, Text};
use rt_tech::{RuleName, TableCause, Which};
use rt_view::Shape;
use thiserror::Error;

/// What a retargeting gives.
#[derive(Drop)]
pub enum Outcome {
    /// The cell was moved.
    Done {
        /// The stream of the moved cell.
        gds: List<u8>,
        /// The certificate. It is empty: certificates aren't built yet.
        cert: List<u8>,
        /// The report. It is empty: reports aren't built yet.
        report: List<u8>,
    },
    /// No positions meet the template of the axis; upwards none do at the least columns.
    Infeasible {
        /// The axis.
        axis: Axis,
        /// The certificate. It is empty: certificates aren't built yet.
        cert: List<u8>,
    },
}

/// Of what there are too many.
#[derive(Clone, Copy, Debug, PartialEq, Eq, Drop)]
pub enum What {
    /// Rectangles and labels of the flat cell.
    Items,
    /// Strips of its layout.
    Strips,
}

/// Why a retargeting is refused.
#[derive(Debug, Drop, Error)]
pub enum Fault {
    /// A table isn't a TOML document.
    #[error("a table isn't TOML")]
    TableToml {
        /// Which table.
        which: Which,
    },
    /// A table isn't valid: the first key at fault, in the order of the formats, and the first cause at it.
    #[error("a table isn't valid")]
    BadTable {
        /// Which table.
        which: Which,
        /// The path of the key.
        key: Text,
        /// What is wrong there.
        cause: TableCause,
    },
    /// The two tables don't say the same but for their numbers: the first key at which they differ.
    #[error("the tables differ")]
    TablesDiffer {
        /// The path of the key.
        key: Text,
    },
    /// The sizes file isn't a TOML document.
    #[error("the sizes file isn't TOML")]
    SizesToml,
    /// The sizes file isn't valid for the target's table, or has sizes for a device that the cell doesn't have: the
    /// first key at fault and the first cause at it.
    #[error("the sizes file isn't valid")]
    BadSizes {
        /// The path of the key.
        key: Text,
        /// What is wrong there.
        cause: TableCause,
    },
    /// The files ask for what isn't built yet.
    #[error("not built")]
    NotBuilt,
    /// The source isn't a stream of the format.
    #[error("the source is no stream")]
    BadStream {
        /// The place behind the longest list of whole records that begins a stream; behind a whole stream, that of the
        /// first byte that isn't 0.
        offset: u64,
        /// Why no stream goes on there.
        cause: Cause,
    },
    /// An element on a mapped layer that the cell reaches isn't taken.
    #[error("an element isn't taken")]
    Unsupported {
        /// The place of the element's first record.
        offset: u64,
        /// What isn't taken of it.
        odd: Odd,
    },
    /// The cell, or a structure that it reaches, isn't in the library.
    #[error("no such structure")]
    NoSuchStructure {
        /// The name.
        name: Text,
    },
    /// The cell reaches structures that place one another in a ring.
    #[error("a ring of structures")]
    Cyclic {
        /// The names along the ring, the first of which is also the last.
        names: List<Text>,
    },
    /// An element that the cell reaches is on a layer that the source's table neither maps nor ignores.
    #[error("an unmapped layer")]
    UnmappedLayer {
        /// The layer.
        layer: i16,
        /// Its data type, text type or box type.
        number: i16,
    },
    /// The points of an array that the cell reaches give no whole step.
    #[error("an array without a whole step")]
    ArrayStep {
        /// The place of the array's first record.
        offset: u64,
    },
    /// A corner or a label of the flat cell lies too far out.
    #[error("a coordinate out of range")]
    CoordinateRange {
        /// The place of its element's first record.
        offset: u64,
    },
    /// A chain of references is too long.
    #[error("structures placed too deep")]
    TooDeep,
    /// There are more items, or more strips, than are taken.
    #[error("too many: {count}")]
    TooMany {
        /// Of what.
        what: What,
        /// How many there are; 2^64 - 1 where there are more.
        count: u64,
    },
    /// The source has this shape, the first of those that a sound source doesn't have.
    #[error("a source shape")]
    SourceShape {
        /// The shape.
        shape: Shape,
        /// The least rectangle around a piece that has it; of a label the square of side 1 whose lower left corner is its point. In source database
        /// units.
        rect: Rect,
    },
    /// The source breaks this rule of its own table, the first one that it breaks.
    #[error("the source breaks a rule")]
    SourceRule {
        /// The rule.
        rule: RuleName,
        /// One of the two cells that show it.
        p: Cell,
        /// The other cell.
        q: Cell,
        /// What was found, in source database units.
        found: i64,
        /// What the rule needs, in source database units.
        needed: i64,
    },
    /// There was no memory for the work.
    #[error("out of memory")]
    OutOfMemory,
}
