//! A flat layout: a list of rectangles for each mask, and labels.
#![tactic(auto)]

mod layout;

pub use layout::{Label, Layout, covers};
