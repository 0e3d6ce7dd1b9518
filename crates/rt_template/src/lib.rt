//! The definitions over what is moved: the rows of the two templates, and the drawing of positions. It has no code but laws.
#![tactic(auto)]

mod laws;

pub use laws::{one_row_across, one_row_upwards};
