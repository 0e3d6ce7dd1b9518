//! Rows solved for a basis: lines of whole numbers over columns, what a table of them has to be, and the laws on it. It has no code.
#![tactic(auto)]

mod laws;

pub use laws::{denominators_are_least, exchange_solves, one_table};
