//! What a certificate claims.
use rt_rows::{Positions, Proof};

/// What a certificate claims of a job, with what proves it. (This project's own.)
#[derive(Drop)]
pub enum Claim {
    /// The positions meet all rows, and no others have a smaller extent.
    Done {
        /// The positions.
        at: Positions,
        /// That the extent across is least.
        across: Proof,
        /// That the extent upwards is least at these columns.
        upwards: Proof,
    },
    /// No positions meet the rows across.
    NoneAcross {
        /// That there are none.
        across: Proof,
    },
    /// The columns meet the rows across, with the least extent; at them no positions meet the rows upwards.
    NoneUpwards {
        /// The columns. Bottoms and tops are empty, and the extent upwards is 0.
        at: Positions,
        /// That the extent across is least.
        across: Proof,
        /// That there are no positions upwards.
        upwards: Proof,
    },
}
