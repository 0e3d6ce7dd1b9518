//! The rules of a mask over the cells that it covers, width and space, those of cuts and of two masks, size, enclosure and distance, and what
//! shows that one is broken; and the rules of a table in their order, those of channels and kinds aside. Definitions, and the lemmas and laws on them: no code.
#![tactic(auto)]

mod laws;

pub use laws::{breaches_of_two_masks_break, first_breach_breaks, valid_pairs_are_measured};
