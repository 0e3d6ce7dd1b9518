//! The template across: whether it has a row, which, and the listing of its names.
#![tactic(auto)]

mod across;
mod beside;
mod candidates;
mod distances;
mod enclosures;
mod masks;
mod names;
mod near;
mod pair;

pub use across::{has_name_h, has_row_h};
pub use names::rows_h;
