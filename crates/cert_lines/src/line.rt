//! What a line of a certificate says.
use rt_rows::{Of, Var};

/// A line of a certificate. Lengths and places are target steps. (The format is this project's own.)
#[derive(Clone, Copy, Drop)]
pub enum Line {
    /// `retarget certificate 1`: the first line.
    Title,
    /// `done R T`: there are positions of these extents, and none of smaller ones.
    Done {
        /// The extent across.
        width: i128,
        /// The extent upwards.
        height: i128,
    },
    /// `infeasible across`: no positions meet the rows across.
    NoneAcross,
    /// `infeasible upwards R`: no positions meet the rows upwards at the columns that follow.
    NoneUpwards {
        /// The extent across.
        width: i128,
    },
    /// `axis none`: there are no mirrors.
    NoAxis,
    /// `axis A`: where the mirror axis is.
    Axis {
        /// Twice its place.
        twice: i128,
    },
    /// `strip i l b r t`: where a strip lies.
    Strip {
        /// The strip's number, from 0.
        number: i128,
        /// Its left side.
        left: i128,
        /// Its bottom.
        bottom: i128,
        /// Its right side.
        right: i128,
        /// Its top.
        top: i128,
    },
    /// `column i l r`: the columns of a strip.
    Column {
        /// The strip's number, from 0.
        number: i128,
        /// Its left side.
        left: i128,
        /// Its right side.
        right: i128,
    },
    /// `across`: the tree on the rows across follows.
    Across,
    /// `upwards`: the tree on the rows upwards follows.
    Upwards,
    /// `branch VAR n`: a node with two trees.
    Branch {
        /// The variable.
        var: Var,
        /// The most that it is in the first tree.
        at: i128,
    },
    /// `cut D k`: a node that adds a row.
    Cut {
        /// What its combination is divided by.
        over: i128,
        /// How many shares follow.
        shares: i128,
    },
    /// `bound D k`: a leaf that bounds the extent.
    Bound {
        /// What its combination is divided by.
        over: i128,
        /// How many shares follow.
        shares: i128,
    },
    /// `empty D k`: a leaf under which there are no positions.
    Empty {
        /// What its combination is divided by.
        over: i128,
        /// How many shares follow.
        shares: i128,
    },
    /// `times row`: a share of the node before.
    Share {
        /// How many times the row is taken.
        times: i128,
        /// The row.
        of: Of,
    },
    /// `end`: the last line.
    End,
}
