//! Why a pivot isn't made.
ghost use Rattle.std.specs.Prelude.{◌≡◌};
ghost use Rattle.rt_tableau.specs.declared.pivot_error.PivotError.TheVariants.{OutOfMemory as WantOfMemory};

use rt_base::{List, OutOfMemory};
use std::alloc::AllocError;

/// Why a pivot isn't made. (This project's own.)
#[derive(Drop)]
pub enum PivotError {
    /// A whole entry of the new table would pass a magnitude of 10^18.
    Overflow {
        /// The basic column of each row, before the pivot.
        basis: List<u32>,
        /// The row of the pivot.
        p: u32,
        /// The column that was to be basic in it.
        q: u32,
        /// The row of the first such place.
        i: u32,
        /// Its column, or the number of columns for the right side.
        j: u32,
    },
    /// There was no memory for the new table.
    OutOfMemory,
}

impl From<OutOfMemory> for PivotError {
    ghost from_gives = { λ _ error. error ≡ WantOfMemory };

    fn from(_error: OutOfMemory) -> PivotError {
        PivotError::OutOfMemory
    }
}

impl From<AllocError> for PivotError {
    ghost from_gives = { λ _ error. error ≡ WantOfMemory };

    fn from(_error: AllocError) -> PivotError {
        PivotError::OutOfMemory
    }
}
