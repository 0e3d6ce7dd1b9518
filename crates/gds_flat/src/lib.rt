//! A structure of a stream's library as a flat layout on the masks of a rule table, or why it isn't taken.
#![tactic(auto)]

mod acceptance;
mod counts;
mod depths;
mod drawing;
mod elements;
mod ends;
mod error;
mod flat;
mod item;
mod items;
mod laws;
pub mod limits;
mod masks;
mod names;
mod odds;
mod orders;
mod own;
mod placing;
mod steps;
mod walk;

pub use error::{ElementFault, FlatError, Odd};
pub use flat::flatten;
pub use laws::{no_circle, no_order_and_missing, one_flat, one_missing, one_order};
