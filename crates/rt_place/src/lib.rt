//! The positions of a job: the least that meet the template across, and at their columns the least that meet the template upwards.
#![tactic(auto)]

mod order;
mod placing;
mod rows;

pub use placing::{PlaceError, STRIPS_PLACED, place};
