//! What a run answers.
use rt_base::List;
use rt_frac::Frac;
use rt_rows::{Proof, Share};

/// Where a run ends. (This project's own.)
#[derive(Clone, Copy, Drop)]
pub enum End {
    /// No right side is below 0.
    Optimum,
    /// A row's right side is below 0, and none of its entries is, so that no point meets it.
    Ray {
        /// The row.
        row: u32,
    },
}

/// What comes next at a table. (This project's own.)
#[derive(Clone, Copy, Drop)]
pub enum Next {
    /// A run ends.
    Ended(End),
    /// The dual pivot.
    Pivot {
        /// The row.
        p: u32,
        /// The column that becomes basic in it.
        q: u32,
    },
}

/// Why a search stops. (This project's own.)
#[derive(Drop)]
pub enum SearchError {
    /// No positions meet the rows. A run of one table never answers it.
    Refuted {
        /// A proof that there are none.
        proof: Proof,
    },
    /// A whole entry of the table after a pivot would pass a magnitude of 10^18.
    Overflow {
        /// The basic column of each row, before the pivot.
        basis: List<u32>,
        /// The row of the pivot.
        p: u32,
        /// The column that was to be basic in it.
        q: u32,
        /// The row of the first such place.
        i: u32,
        /// Its column, or the number of columns for the right side.
        j: u32,
    },
    /// A pivot is needed, and the ledger stands at the limit.
    Budget {
        /// The limit.
        pivots: u64,
    },
    /// There was no memory.
    OutOfMemory,
}

/// What a run shows of the goal. Shares tell rows by their numbers in the table. (This project's own.)
#[derive(Drop)]
pub enum Bound {
    /// The least value of the goal among all points that meet the rows.
    Optimum {
        /// What the columns of the variables are worth at the point of the basis, in order.
        at: List<Frac>,
        /// A combination of rows: it has `over` times the goal at most and nothing else above 0. Its least value over `over` is the goal's value.
        shares: List<Share>,
        /// What the combination is divided by.
        over: i128,
    },
    /// No point meets the rows.
    Ray {
        /// A combination of rows: it has nothing above 0, and its least value is above 0.
        shares: List<Share>,
        /// What the combination is divided by.
        over: i128,
    },
}
