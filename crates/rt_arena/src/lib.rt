//! The ledger of reads, which nothing but the arena of planes is to raise: it is for planes, and not used yet.
#![tactic(auto)]

mod reads;

pub use reads::Reads;
