//! The least positions along an axis that meet rows of differences, each of which asks that one side is beyond another by a number at least,
//! with a proof that the extent is least, or that no positions meet the rows.
#![tactic(auto)]

mod along_axis;
mod event;
mod found;
mod laws;
mod path_error;
mod raises;
mod rounds;
mod steps;
mod ways_back;

pub use along_axis::longest;
pub use laws::{bounded_rows_are_above, refuted_rows_have_no_values};
pub use path_error::PathError;
