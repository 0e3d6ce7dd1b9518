//! Proofs that positions can't be smaller, or can't be at all: linear forms, combinations of rows, and trees.
#![tactic(auto)]

mod laws;

pub use laws::{fault_excludes, one_fault, proof_bounds, refutation_refutes};
