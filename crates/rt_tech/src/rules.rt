//! How a rule of a table is named, and what a search for a broken one answers.
use rt_base::Cell;
use thiserror::Error;

/// A rule of a table. Those of channels, `Cap`, `Ext` and `Cross`, are in no list of rules yet, and so are never answered.
#[derive(Clone, Copy, Debug, PartialEq, Eq, Drop)]
pub enum RuleName {
    /// The least width of a mask's shapes. The number is that of the mask, from 0.
    Width(u32),
    /// The least space between a mask's shapes. The number is that of the mask, from 0.
    Space(u32),
    /// The side of a cut's squares. The number is that of the cut's mask, from 0.
    Size(u32),
    /// An enclosure of a cut. The number is its place in the table's list of enclosures, from 0.
    Enclose(u32),
    /// How far a gate reaches at least past its channels.
    Cap,
    /// How far an active reaches at least past its channels.
    Ext,
    /// The least gap between gate alone and active alone.
    Cross,
    /// A distance between two masks. The number is its place in the table's list of distances, from 0.
    Apart(u32),
}

/// Why a layout isn't found to keep the rules of a table.
#[derive(Debug, PartialEq, Eq, Drop, Error)]
pub enum RuleError {
    /// The rule is broken.
    #[error("{rule:?} is broken between ({}, {}) and ({}, {}): {found} found, {needed} needed", .p.x, .p.y, .q.x, .q.y)]
    Broken {
        /// The rule that is broken.
        rule: RuleName,
        /// One of the two cells between which it is broken.
        p: Cell,
        /// The other one.
        q: Cell,
        /// The extent or the gap that was found, in the units of the table.
        found: i64,
        /// What the rule asks for, in the units of the table: of a size the one that it allows, of any other rule the
        /// least one.
        needed: i64,
    },
    /// There was no memory for the search.
    #[error("out of memory")]
    OutOfMemory,
}
