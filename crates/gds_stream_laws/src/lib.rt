//! What holds of every library that a stream of the format GDSII holds, and of the one that the writer's bytes hold.
#![tactic(auto)]

mod laws;

pub use laws::{streams_are_lawful, what_is_written_is_read_back};
