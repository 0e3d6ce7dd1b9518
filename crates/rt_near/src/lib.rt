//! Pairs of intervals that lie near each other on a line.
#![tactic(auto)]

mod entry;
mod near;
mod pairs;

pub use near::{Sides, near_pairs};
