//! That the rule of flattening decides: what is flattened isn't refused, and what is refused has one refusal, or is a circle.
#![tactic(auto)]

mod laws;

pub use laws::{flattened_is_not_refused, one_refusal};
