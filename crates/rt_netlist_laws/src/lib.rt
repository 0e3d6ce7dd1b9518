//! What holds of the nets of positions that meet both templates: their drawing has the nets of its source, and its labels the numbers of the
//! source's labels. It has no code.
#![tactic(auto)]

mod laws;

pub use laws::{moved_keeps_nets, moved_keeps_numbers};
