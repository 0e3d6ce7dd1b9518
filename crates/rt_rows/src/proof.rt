//! Proofs about the least extent of positions that meet rows, written as trees. (After the duality of linear programming, and Chvátal and
//! Gomory's rounding.)
use crate::name::Name;
use crate::row::Var;
use rt_base::List;

/// The row that a share takes.
#[derive(Clone, Copy, Drop)]
pub enum Of {
    /// The template's row of that name.
    Template(Name),
    /// The row that was added so many rows below the root, from 0.
    Up(u32),
}

/// A multiple of a row, part of a combination.
#[derive(Clone, Copy, Drop)]
pub struct Share {
    /// How many times the row is taken; not below 0 in a proof.
    pub times: i128,
    /// The row.
    pub of: Of,
}

/// A node of a proof. The combination of its shares is divided by `over`, which is at least 1 in a proof.
#[derive(Drop)]
pub enum Node {
    /// The variable is at most `at`, which is added as a row for the first tree behind it, or at least one more, added for the second.
    Branch {
        /// The variable.
        var: Var,
        /// The most that it is in the first tree.
        at: i64,
    },
    /// The combination, whose coefficients are whole, with its right side rounded up: a row for the tree behind it.
    Cut {
        /// What it is divided by.
        over: i128,
        /// What it is made of.
        shares: List<Share>,
    },
    /// The combination bounds the extent from below: a leaf.
    Bound {
        /// What it is divided by.
        over: i128,
        /// What it is made of.
        shares: List<Share>,
    },
    /// The combination says that 0 is at least a number above it: a leaf, under which no positions meet the rows.
    Empty {
        /// What it is divided by.
        over: i128,
        /// What it is made of.
        shares: List<Share>,
    },
}

/// One tree, written from its root, first child first.
#[derive(Drop)]
pub struct Proof {
    /// Its nodes.
    pub nodes: List<Node>,
}
