//! The drawing of positions that meet both templates, as a cell to be written.
#![tactic(auto)]

mod drawing;
mod labels;

pub use drawing::draw;
