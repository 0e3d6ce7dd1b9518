//! The pieces of a mask by its strips: numbers of strips by which pieces are told apart.
#![tactic(auto)]

mod numbers;

pub use numbers::{own_numbers, piece_numbers, stands};
