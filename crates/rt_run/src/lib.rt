//! A run of the program over a desk: the words, the files that are fetched, the answer, its line and its status, and the store.
#![tactic(auto)]

mod answer;
mod fetching;
mod naming;
mod running;
mod saying;
mod words;

pub use answer::{NO_MEMORY, NOT_STORED};
pub use running::{Status, run};
