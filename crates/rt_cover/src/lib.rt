//! Whether the strips of a mask cover rectangles.
#![tactic(auto)]

mod across;
mod bars;
mod missing;

pub use missing::first_missing;
