//! What holds of positions that meet both templates: their drawing breaks no rule of the target's table, and lies within the extents. It
//! has no code.
#![tactic(auto)]

mod laws;

pub use laws::{moved_breaks_no_rule, moved_fits};
