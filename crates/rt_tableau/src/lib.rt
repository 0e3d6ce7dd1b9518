//! The tableau: rows solved for a basis, in whole numbers over each row's own denominator, and its pivots.
#![tactic(auto)]

mod added;
mod entries;
mod exchange;
mod laws;
mod line;
mod pivot_error;
mod start;
mod tableau;

pub use laws::{one_entry, overflow_excludes};
pub use pivot_error::PivotError;
pub use tableau::Tableau;
