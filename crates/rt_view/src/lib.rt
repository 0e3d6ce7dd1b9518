//! What a layout is made of: its view, with strips, channels and labels; the shapes that a sound source has; and the job of moving it.
//! Types and definitions, and no other code than what an error is of a want of memory.
#![tactic(auto)]

mod job;
mod shapes;

pub use job::Job;
pub use shapes::{Channel, NetError, Shape, View};
