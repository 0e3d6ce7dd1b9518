//! Rectangles row by row: a sweep goes upwards over them, from one height at which some begin or end to the next, and tells which of them
//! cross the rows between.
#![tactic(auto)]

mod bar;
mod merge;
mod rows;
mod step;
mod sweep;

pub use bar::Bar;
pub use step::Slab;
pub use sweep::Sweep;
