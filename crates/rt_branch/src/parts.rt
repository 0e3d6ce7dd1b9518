//! What a search keeps, and what it finds at a node.
use rt_base::List;
use rt_rows::Row;

/// Whole positions. (This project's own.)
#[derive(Drop)]
pub struct Best {
    /// What the goal is worth at them.
    pub extent: i64,
    /// All variables, in the order of their columns.
    pub at: List<i64>,
}

// What was done to the table.
#[derive(Clone, Copy, Drop)]
pub(crate) enum Change {
    // Another column was made basic in row p, in which that column was basic.
    Exchanged { p: u32, column: u32 },
    // A row was added.
    Added,
}

// The second node of a branch.
#[derive(Clone, Copy, Drop)]
pub(crate) struct Waiting {
    // How many changes lead to the node that was branched.
    pub length: usize,
    // The row that is added there.
    pub row: Row,
}

// What a search keeps beside the table.
#[derive(Drop)]
pub(crate) struct Path {
    // The changes that led to the table, the latest one last.
    pub changes: Vec<Change>,
    // The nodes that wait, the next one last.
    pub waiting: Vec<Waiting>,
    // The best positions so far.
    pub best: Option<Best>,
}

// What a column is worth at the point of a basis.
#[derive(Clone, Copy, Drop)]
pub(crate) enum Value {
    // That whole number.
    Whole { n: i64 },
    // More than that whole number, and less than the next one.
    Broken { n: i64 },
}

// What the point of a basis is at an optimum.
#[derive(Drop)]
pub(crate) enum Point {
    // All variables are whole.
    Whole { at: List<i64> },
    // The first column of a variable that isn't whole, and the whole number below its value.
    Broken { j: u32, n: i64 },
}
