//! The strips of which the rules of cuts, the enclosures and the distances of a job's source table speak: tests of one, and pairs among which all are.
#![tactic(auto)]

mod ends;
mod hosts;
mod near;
mod numbers;
mod offering;
mod pairs;
mod sides;

pub use ends::{is_highest_host, is_lowest_host};
pub use hosts::is_host;
pub use near::near_of_two;
pub use numbers::{apart_number, enclose_number, less_width};
pub use offering::add_names;
pub use pairs::{host_pairs, rows_of};
pub use sides::{are_on_two_sides, is_cut_strip, is_of_cut};
