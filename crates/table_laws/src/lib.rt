//! Laws of the reading of rule tables and sizes files: what is in order is read, and what is read is in order.
#![tactic(auto)]

mod laws;

pub use laws::{sizes_read_are_in_order, what_is_in_order_is_read};
