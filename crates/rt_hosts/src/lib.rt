//! Strips of a mask that have a cell in common with rectangles.
#![tactic(auto)]

mod across;
mod bars;
mod one;
mod some;

pub use one::hosts_of;
pub use some::some_hosts;
