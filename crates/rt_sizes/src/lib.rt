//! Reading of sizes files, TOML documents, and the sizes that they give to devices.
#![tactic(auto)]

mod book;
pub mod limits;
mod sizes_entries;
mod sizes_file;
mod wishing;

pub use sizes_file::read_sizes;
pub use wishing::wishes;
