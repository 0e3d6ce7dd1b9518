//! The template upwards, listed: its names at given columns, in order, and its rows.
#![tactic(auto)]

mod apart;
mod between;
mod chains;
mod clear;
mod close;
mod found;
mod names;
mod nearby;
mod rows;
mod sight;
mod single;

pub use names::rows_v;
pub use rows::{named_rows_v, row_v};
pub use single::has_row_v;
