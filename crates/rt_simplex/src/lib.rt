//! The dual simplex method: which pivot it makes at a table, and its run to an optimum or a ray.
#![tactic(auto)]

mod answers;
mod bounding;
mod choices;
mod combination;
mod laws;
mod run;
mod values;

pub use answers::{Bound, End, Next, SearchError};
pub use bounding::bound;
pub use choices::next;
pub use laws::{
    added_rows_keep_feasible, ends_exclude, one_outcome, optimum_is_least, pivots_keep_feasible,
    ray_has_no_point, runs_are_one, start_is_feasible,
};
pub use run::{advance, run_dual};
